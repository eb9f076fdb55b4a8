// What a C host looks up in a sheet of a press: how many rows and columns there are, the colour of a cell, and the name of a colour.
ghost use Rattle.std.specs.Prelude.{◌≡◌};
ghost use Rattle.lookups.specs.Sheet.{size_shown, cell_shown, sheet_colour_shown};

use crate::colour::{Place, place_of};
use books::sheet::{read_sheet, sheet_size};

/// Rows and columns of a sheet of a press: in one number, or 0.
pub fn dv_sheet_size(press: usize, sheet: &[u8]) -> u64
    ensures { result ≡ size_shown press sheet.now }
{
    let size = sheet_size(press, sheet);
    size.rows as u64 + 4294967296 * (size.cols as u64)
}

/// The number that a cell's colour has in the sheet's list, with 1 above it, or 0. A refused sheet has no cells.
pub fn dv_cell(press: usize, sheet: &[u8], row: usize, column: usize) -> u64
    ensures { result ≡ cell_shown press sheet.now row column }
{
    let Ok(g) = read_sheet(press, sheet) else {
        return 0;
    };
    let size = g.size;
    if row < size.rows && column < size.cols {
        g.cells[row * size.cols + column] as u64 + 4294967296
    } else {
        0
    }
}

/// Where the name of a colour starts in the lent sheet and how long it is, or 0. A refused sheet has no colours.
pub fn dv_sheet_colour(press: usize, sheet: &[u8], number: usize) -> u64
    ensures { result ≡ sheet_colour_shown press sheet.now number }
{
    match read_sheet(press, sheet) {
        Ok(g) => place_of(&g.colours, number).map_or(0, Place::pack),
        Err(_) => 0,
    }
}
