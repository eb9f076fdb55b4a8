// The eight combinations as calls for the C host. Each takes the lent books and an output slice, and answers one number.
ghost use Rattle.families.specs.Combine.{either_of, beside, above, run, stack, mirrored, flipped, transposed};
ghost use Rattle.drafts.specs.Outcome.{Leaves};
ghost use Rattle.families.specs.Outcome.{on_one, on_two};

use crate::answering;
use crate::asked::{Change, Pairing, Single};
use books::rule::Dir;

/// What the first or the second book holds.
pub fn dv_either_of(first: &[u8], second: &[u8], out: &mut [u8]) -> u64
    ensures { Leaves (on_two either_of first.now second.now out.old) result out.new }
{
    answering::on_two(Pairing::EitherOf, first, second, out)
}

/// The first book's sheets with the second's to their right.
pub fn dv_beside(first: &[u8], second: &[u8], out: &mut [u8]) -> u64
    ensures { Leaves (on_two beside first.now second.now out.old) result out.new }
{
    answering::on_two(Pairing::Joined(Dir::Across), first, second, out)
}

/// The first book's sheets with the second's below them.
pub fn dv_above(first: &[u8], second: &[u8], out: &mut [u8]) -> u64
    ensures { Leaves (on_two above first.now second.now out.old) result out.new }
{
    answering::on_two(Pairing::Joined(Dir::Down), first, second, out)
}

/// One or more of the book's sheets side by side.
pub fn dv_run(book: &[u8], out: &mut [u8]) -> u64
    ensures { Leaves (on_one run book.now out.old) result out.new }
{
    answering::on_one(Single::Repeated(Dir::Across), book, out)
}

/// One or more of the book's sheets on top of each other.
pub fn dv_stack(book: &[u8], out: &mut [u8]) -> u64
    ensures { Leaves (on_one stack book.now out.old) result out.new }
{
    answering::on_one(Single::Repeated(Dir::Down), book, out)
}

/// The book's sheets with left and right exchanged.
pub fn dv_mirrored(book: &[u8], out: &mut [u8]) -> u64
    ensures { Leaves (on_one mirrored book.now out.old) result out.new }
{
    answering::on_one(Single::Changed(Change::Mirrored), book, out)
}

/// The book's sheets with top and bottom exchanged.
pub fn dv_flipped(book: &[u8], out: &mut [u8]) -> u64
    ensures { Leaves (on_one flipped book.now out.old) result out.new }
{
    answering::on_one(Single::Changed(Change::Flipped), book, out)
}

/// The book's sheets with rows and columns exchanged.
pub fn dv_transposed(book: &[u8], out: &mut [u8]) -> u64
    ensures { Leaves (on_one transposed book.now out.old) result out.new }
{
    answering::on_one(Single::Changed(Change::Transposed), book, out)
}
