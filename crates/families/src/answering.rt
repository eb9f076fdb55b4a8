// Reading the lent books, making the combination, writing it and answering: what the calls have in common.
ghost use Rattle.books.specs.ContentsIn.{contents_in};
ghost use Rattle.drafts.specs.Outcome.{Leaves};
ghost use Rattle.families.specs.Outcome.{on_one, on_second, on_two};
ghost use Rattle.families.specs.inner.Asked.{paired, alone};
ghost use Rattle.families.specs.inner.Finished.{finished, Ready};

use crate::asked::{Pairing, Single};
use crate::lent::LentBook;
use books::reply::Reply;
use books::{answer, book};
use drafts::draft::Draft;
use drafts::writing;

// Writes what was made, and answers 0, 12 or 13.
fn finish(first: &[u8], second: &[u8], made: Option<Draft>, out: &mut [u8]) -> u64
    requires { Ready made }
    ensures { Leaves (finished first.now second.now made out.old) result out.new }
{
    match made {
        Some(draft) => match writing::write_book(first, second, draft, out) {
            Ok(count) => answer::pack(Reply::Accepted.answer(), count),
            Err(why) => answer::pack(answer::unblamed(why.number()), 0),
        },
        None => answer::pack(Reply::TooMany.answer(), 0),
    }
}

// Goes on with the second book.
fn on_second(pairing: Pairing, first: LentBook<'_>, second: &[u8], out: &mut [u8]) -> u64
    ensures { Leaves (on_second (paired pairing (contents_in first.entry.bytes.now first.entry.family.now)) second.now out.old) result out.new }
{
    match book::read_book(second) {
        Ok(family) => {
            let made = first.paired(
                pairing,
                &LentBook {
                    bytes: second,
                    family: &family,
                },
            );
            finish(first.bytes, second, made, out)
        }
        Err(fault) => answer::pack(answer::blame(2, fault), 0),
    }
}

// A combination of two books: the first is read, then the second.
pub(crate) fn on_two(pairing: Pairing, first: &[u8], second: &[u8], out: &mut [u8]) -> u64
    ensures { Leaves (on_two (paired pairing) first.now second.now out.old) result out.new }
{
    match book::read_book(first) {
        Ok(family) => on_second(
            pairing,
            LentBook {
                bytes: first,
                family: &family,
            },
            second,
            out,
        ),
        Err(fault) => answer::pack(answer::blame(1, fault), 0),
    }
}

// A combination of one book.
pub(crate) fn on_one(single: Single, book: &[u8], out: &mut [u8]) -> u64
    ensures { Leaves (on_one (alone single) book.now out.old) result out.new }
{
    match book::read_book(book) {
        Ok(family) => {
            let made = LentBook {
                bytes: book,
                family: &family,
            }
            .alone(single);
            finish(book, book, made, out)
        }
        Err(fault) => answer::pack(answer::blame(1, fault), 0),
    }
}
