// A book: a colour list, the motif count, the start motif, the rule count, and the rules.
ghost use Rattle.std.specs.Prelude.{◌≡◌};
ghost use Rattle.books.specs.Book.{book_by, book_of, untidy_of};
ghost use Rattle.books.specs.Told.{strict, told_book};

use crate::counts::Counts;
use crate::family::Family;
use crate::rule::{MOST_MOTIFS, MOST_RULES};
use crate::rules::{Copies, read_rules};
use names::colours::{ColourList, read_colours};
use names::fault::{Fault, Refusal};
use names::reader::Reader;

// The family that a book holds, or the first fault.
#[tactic(auto, unfolding(crate::specs::Book::book_by, crate::specs::Book::figured_at, crate::specs::Book::figures_at, crate::specs::Book::ruled_at))]
fn read_by(copies: Copies, bytes: &[u8]) -> Result<Family, Fault>
    ensures { told_book result ≡ book_by (strict copies) bytes.now }
{
    let ColourList { colours, next } = read_colours(bytes)?;
    let mut reader = Reader { bytes, at: next };
    let motifs = reader.within(1, MOST_MOTIFS)?;
    let start = reader.below(motifs, Refusal::Unlisted)?;
    let count = reader.within(1, MOST_RULES)?;
    let counts = Counts {
        motifs,
        colours: colours.count,
    };
    let rules = read_rules(&mut reader, counts, count, copies)?;
    reader.end()?;
    Ok(Family {
        colours,
        motifs,
        start,
        count,
        rules,
    })
}

/// The family that a book holds, or the first fault.
pub fn read_book(s: &[u8]) -> Result<Family, Fault>
    ensures { told_book result ≡ book_of s.now }
{
    read_by(Copies::Refused, s)
}

/// The same of a book that is yet to be tidied: equal rules may stand in it.
pub fn read_untidy(s: &[u8]) -> Result<Family, Fault>
    ensures { told_book result ≡ untidy_of s.now }
{
    read_by(Copies::Taken, s)
}
