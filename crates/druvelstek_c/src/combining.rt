// The calls that write a book: the eight combinations, and a book tidied.
ghost use Rattle.families.specs.Combine.{either_of, beside, above, run, stack, mirrored, flipped, transposed};
ghost use Rattle.families.specs.Outcome.{on_one, on_two};
ghost use Rattle.drafts.specs.Outcome.{Leaves};
ghost use Rattle.tidy.specs.Outcome.{tidying};

use families::calls;

/// What the first or the second book holds.
#[unsafe(no_mangle)]
pub extern "C" fn dv_either_of(first: &[u8], second: &[u8], out: &mut [u8]) -> u64
    ensures { Leaves (on_two either_of first.now second.now out.old) result out.new }
{
    calls::dv_either_of(first, second, out)
}

/// The first book's sheets with the second's to their right.
#[unsafe(no_mangle)]
pub extern "C" fn dv_beside(first: &[u8], second: &[u8], out: &mut [u8]) -> u64
    ensures { Leaves (on_two beside first.now second.now out.old) result out.new }
{
    calls::dv_beside(first, second, out)
}

/// The first book's sheets with the second's below them.
#[unsafe(no_mangle)]
pub extern "C" fn dv_above(first: &[u8], second: &[u8], out: &mut [u8]) -> u64
    ensures { Leaves (on_two above first.now second.now out.old) result out.new }
{
    calls::dv_above(first, second, out)
}

/// One or more of the book's sheets side by side.
#[unsafe(no_mangle)]
pub extern "C" fn dv_run(book: &[u8], out: &mut [u8]) -> u64
    ensures { Leaves (on_one run book.now out.old) result out.new }
{
    calls::dv_run(book, out)
}

/// One or more of the book's sheets on top of each other.
#[unsafe(no_mangle)]
pub extern "C" fn dv_stack(book: &[u8], out: &mut [u8]) -> u64
    ensures { Leaves (on_one stack book.now out.old) result out.new }
{
    calls::dv_stack(book, out)
}

/// The book's sheets with left and right exchanged.
#[unsafe(no_mangle)]
pub extern "C" fn dv_mirrored(book: &[u8], out: &mut [u8]) -> u64
    ensures { Leaves (on_one mirrored book.now out.old) result out.new }
{
    calls::dv_mirrored(book, out)
}

/// The book's sheets with top and bottom exchanged.
#[unsafe(no_mangle)]
pub extern "C" fn dv_flipped(book: &[u8], out: &mut [u8]) -> u64
    ensures { Leaves (on_one flipped book.now out.old) result out.new }
{
    calls::dv_flipped(book, out)
}

/// The book's sheets with rows and columns exchanged.
#[unsafe(no_mangle)]
pub extern "C" fn dv_transposed(book: &[u8], out: &mut [u8]) -> u64
    ensures { Leaves (on_one transposed book.now out.old) result out.new }
{
    calls::dv_transposed(book, out)
}

/// The book without what no sheet needs.
#[unsafe(no_mangle)]
pub extern "C" fn dv_tidy(book: &[u8], out: &mut [u8]) -> u64
    ensures { Leaves (tidying book.now out.old) result out.new }
{
    tidy::calls::dv_tidy(book, out)
}
