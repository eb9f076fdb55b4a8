// Cells of a sheet recoloured.
use crate::kinds::Case;
use crate::spelling::{self, Kept};
use crate::{lent, printing};
use arrayvec::ArrayVec;
use std::io;

// The cell to recolour: its row, its column and its new colour stand in three bytes, each 0 where it is left out.
fn recolour(
    rt: &impl Print,
    case: Case<'_>,
    sheet: &mut [u8],
    work: &mut [u32],
    cell: &[u8],
) -> io::Result<()> {
    let number = |i: usize| usize::from(cell.get(i).copied().unwrap_or(0));
    let packed = desk::dv_recolour(
        case.press,
        case.first,
        sheet,
        work,
        number(0),
        number(1),
        number(2),
    );
    printing::answer(rt, packed)
}

// The answers for one cell or two, and the work slice as it is left. The slice has the table of the sheet first, where the line says so; the sheet is
// kept under N.
pub(crate) fn paint(rt: &impl Print, case: Case<'_>, kept: &mut Kept) -> io::Result<()> {
    let mut sheet = [0; 64];
    let length = spelling::spell_over(case.line.part(3), kept, &mut sheet);
    let sheet = &mut sheet[..lent::room(length, 64)];
    let mut work = [7u32; 91];
    let work = &mut work[..lent::room(case.line.number(4), 91)];
    let mut cells = ArrayVec::<u8, 6>::new();
    spelling::spell(case.line.part(5), kept, &mut cells);
    rt.write_all(case.line.part(1))?;
    if case.line.letter(6) == b't' {
        let mut tree = [u16::MAX; 50];
        pieces::derive::dv_derive(case.press, case.first, sheet, work, &mut tree);
    }
    recolour(rt, case, sheet, work, &cells)?;
    if cells.len() > 3 {
        recolour(rt, case, sheet, work, &cells[3..])?;
    }
    println!(rt)?;
    print!(rt; "the slice:")?;
    printing::numbers(rt, work)?;
    kept.keep(b'N', sheet);
    Ok(())
}
