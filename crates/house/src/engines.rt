// The plain engine, and every colouring of a small sheet by both engines.
ghost use Rattle.std.specs.Prelude.{◌≤◌};

use crate::kinds::Case;
use crate::{printing, spelling};
use arrayvec::ArrayVec;
use std::io;

// The answer of the plain engine.
pub(crate) fn plain(rt: &impl Print, case: Case<'_>) -> io::Result<()> {
    printing::answer(
        rt,
        plain::calls::dv_plain(case.press, case.first, case.second),
    )?;
    println!(rt)
}

// How many sheets of two colours there are with so many cells.
fn colourings(cells: usize) -> usize
    ensures { result ≤ 65536 }
{
    (0..cells).fold(1, |count, _| count % 32769 * 2)
}

// A sheet whose cells have the bits of a number for their colours. What stands before the cells is lent.
fn coloured(start: &[u8], cells: usize, bits: usize) -> ArrayVec<u8, 64> {
    let mut sheet = ArrayVec::new();
    spelling::add(&mut sheet, start);
    let mut left = bits;
    for _ in 0..cells {
        spelling::add(&mut sheet, &[(left % 2) as u8]);
        left /= 2;
    }
    sheet
}

// Whether the plain engine accepts a sheet, and whether the first engine, whose count is its trials, gives the same answer.
#[derive(Clone, Copy)]
struct Compared {
    accepted: bool,
    same: bool,
}

fn compare(press: usize, book: &[u8], sheet: &[u8], work: &mut [u32]) -> Compared {
    let mut tree = [0u16; 62];
    let first = pieces::derive::dv_derive(press, book, sheet, work, &mut tree);
    let second = plain::calls::dv_plain(press, book, sheet);
    Compared {
        accepted: second % 256 == 0,
        same: first % 4294967296 == second,
    }
}

// How many sheets there are of a size, how many of them the family has, and to how many both engines give the same answer.
pub(crate) fn both(rt: &impl Print, case: Case<'_>, work: &mut [u32]) -> io::Result<()> {
    let cells = case.line.number(5);
    let sheets = colourings(cells);
    let mut accepted = 0;
    let mut same = 0;
    for bits in 0..sheets {
        let sheet = coloured(case.second, cells, bits);
        let compared = compare(case.press, case.first, &sheet, work);
        accepted += usize::from(compared.accepted);
        same += usize::from(compared.same);
    }
    println!(rt; ": {sheets} {accepted} {same}")
}
