// Why a sheet is not in a family.
ghost use Rattle.reasons.specs.Why.{why_not, Leaves};

use reasons::calls;

/// Why the family of a book has not a sheet of a press.
#[unsafe(no_mangle)]
pub extern "C" fn dv_why_not(press: usize, book: &[u8], sheet: &[u8], work: &mut [u32]) -> u64
    ensures { Leaves (why_not press book.now sheet.now work.old) result work.new }
{
    calls::dv_why_not(press, book, sheet, work)
}
