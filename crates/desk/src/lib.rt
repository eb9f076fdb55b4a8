// The call of the proofing desk for the C host.
#![tactic(auto)]

pub mod recolour;

ghost use Rattle.desk.specs.Recolour.{recolouring, RecoloursPacked};

use crate::recolour::recolour;
use books::answer::pack;

/// Recolours one cell of a sheet, as `recolour::recolour` does.
pub fn dv_recolour(
    press: usize,
    book: &[u8],
    sheet: &mut [u8],
    work: &mut [u32],
    row: usize,
    column: usize,
    colour: usize,
) -> u64
    ensures { RecoloursPacked (recolouring press book.now sheet.old work.old row column colour)
        result sheet.new work.new }
{
    pack(recolour(press, book, sheet, work, row, column, colour), 0)
}
