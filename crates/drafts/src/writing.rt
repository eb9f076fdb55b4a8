// Writing a book whose names are parts of one or two lent books.
ghost use Rattle.std.specs.Prelude.{◌≡◌};
ghost use Rattle.drafts.specs.Draft.{draft_in, DraftFits, fits?, WroteBook, WroteDraft};
ghost use Rattle.drafts.specs.Written.{number_of, told_written};

use crate::draft::Draft;
use crate::writer::Writer;
use books::rule::MOST_RULES;
use names::colours::MOST_COLOURS;

/// Why a draft is not written.
#[derive(Clone, Copy, Debug, PartialEq, Eq)]
pub enum Unwritten {
    // A count is past its array.
    TooMany,
    // The slice is shorter than the book.
    NoRoom,
}

impl Unwritten {
    /// The number that a call answers.
    pub fn number(self) -> u8
        ensures { result ≡ number_of self }
    {
        match self {
            Unwritten::TooMany => 12,
            Unwritten::NoRoom => 13,
        }
    }
}

// Writes the book, or nothing where the slice is too short for it: it is measured first.
fn write_whole(first: &[u8], second: &[u8], d: &Draft, out: &mut [u8]) -> Result<usize, Unwritten>
    requires { DraftFits d.now }
    ensures { WroteBook (draft_in first.now second.now d.now) out.old (told_written result) out.new }
{
    let mut measured = Writer {
        out: &mut [],
        at: 0,
    };
    measured.book(first, second, d);
    let size = measured.at;
    if out.len() < size {
        return Err(Unwritten::NoRoom);
    }
    let mut writer = Writer { out, at: 0 };
    writer.book(first, second, d);
    Ok(size)
}

// Whether the counts are within the arrays.
fn counts_fit(d: &Draft) -> bool
    ensures { result ≡ fits? d.now }
{
    d.family.colours.count <= MOST_COLOURS
        && d.more.count <= MOST_COLOURS
        && d.family.count <= MOST_RULES
}

/// The same for every draft: one with a count past its array is refused, and nothing is written. It comes by value, since of an array within what is
/// behind a reference the proof does not know the length.
pub fn write_book(first: &[u8], second: &[u8], d: Draft, out: &mut [u8]) -> Result<usize, Unwritten>
    ensures { WroteDraft first.now second.now d out.old (told_written result) out.new }
{
    if counts_fit(&d) {
        write_whole(first, second, &d, out)
    } else {
        Err(Unwritten::TooMany)
    }
}
