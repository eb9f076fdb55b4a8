// Tidying a book as a call for the C host: from a lent book into a lent slice.
ghost use Rattle.books.specs.ContentsIn.{contents_in};
ghost use Rattle.drafts.specs.Outcome.{Leaves, written};
ghost use Rattle.tidy.specs.Outcome.{tidied_out, tidying};
ghost use Rattle.tidy.specs.Tidied.{leaving};

use crate::marking;
use crate::untidy::Untidy;
use books::reply::Reply;
use books::{answer, book};
use drafts::draft::Draft;
use drafts::writing;
use names::colours;

// Writes what is left of a lent book's family, and answers 0 or 13.
fn write_left(book: &[u8], untidy: Untidy<'_>, marks: u32, out: &mut [u8]) -> u64
    ensures { Leaves (written (leaving marks (contents_in book.now untidy.entry.family.now)) out.old) result out.new }
{
    let draft = Draft {
        family: untidy.cleared(marks),
        more: colours::no_colours(),
    };
    match writing::write_book(book, book, draft, out) {
        Ok(count) => answer::pack(Reply::Accepted.answer(), count),
        Err(why) => answer::pack(answer::unblamed(why.number()), 0),
    }
}

// Tidies a lent book's family, or answers 17 where its start cannot be rewritten to colours.
fn tidy_family(book: &[u8], untidy: Untidy<'_>, out: &mut [u8]) -> u64
    ensures { Leaves (tidied_out (contents_in book.now untidy.entry.family.now) out.old) result out.new }
{
    let can = untidy.rewritten();
    if marking::is_marked(can, untidy.family.start as u8) {
        let marks = untidy.reached(can);
        write_left(book, untidy, marks, out)
    } else {
        answer::pack(Reply::StartLost.answer(), 0)
    }
}

/// The book without motifs that no sheet needs and without later copies of equal rules: it holds the same sheets.
pub fn dv_tidy(book: &[u8], out: &mut [u8]) -> u64
    ensures { Leaves (tidying book.now out.old) result out.new }
{
    match book::read_untidy(book) {
        Ok(family) => tidy_family(book, Untidy { family: &family }, out),
        Err(fault) => answer::pack(answer::blame(1, fault), 0),
    }
}
