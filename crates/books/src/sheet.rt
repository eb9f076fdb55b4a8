// A sheet as it is read: a colour list, the job ticket, rows and columns, then one colour number per cell, row by row.
ghost use Rattle.std.specs.Prelude.{◌≡◌, IfOk, IfErr};
ghost use Rattle.names.specs.Fault.{told_fault};
ghost use Rattle.books.specs.Calls.{size_of};
ghost use Rattle.books.specs.Sheet.{refused_sheet, sheet_of, over, sheet_figures, SheetInto};
ghost use Rattle.books.specs.Told.{told_figures, told_sheet};

use crate::cells::read_cells;
use crate::press::greatest;
use crate::size::{ROOM, Size};
use names::colours::{Colours, Listed, MOST_COLOURS, read_list};
use names::fault::Fault;
use names::reader::Reader;

/// The colours are places in the lent sheet; the ticket has no part in what is derived; the first rows times columns cells stand, row by row, and
/// the others are 0. Its press has at most so many rows and columns.
#[derive(Clone, Copy)]
pub struct Sheet {
    pub colours: Colours,
    pub ticket: usize,
    pub most: usize,
    pub size: Size,
    pub cells: [u8; ROOM],
}

/// The same of a sheet whose colours and cells went into lent arrays: how many colours it has, and what is told besides.
#[derive(Clone, Copy)]
pub struct SheetFigures {
    pub colours: usize,
    pub ticket: usize,
    pub most: usize,
    pub size: Size,
}

// The sheet of a press that the input is, read into lent arrays. Where it is refused, some of it is left in them.
#[inline(always)]
fn fill_sheet(
    press: usize,
    s: &[u8],
    starts: &mut [u16; MOST_COLOURS],
    lens: &mut [u8; MOST_COLOURS],
    cells: &mut [u8; ROOM],
) -> Result<SheetFigures, Fault>
    ensures ok { IfOk result (λ _. SheetInto (over cells.old (sheet_of press s.now)) (told_figures result) starts.new lens.new cells.new) }
    ensures err { IfErr result (λ f. sheet_of press s.now ≡ refused_sheet (told_fault f)) }
{
    let Listed {
        count: colours,
        next,
    } = read_list(s, starts, lens)?;
    let mut reader = Reader { bytes: s, at: next };
    let ticket = reader.number()?;
    let most = greatest(press);
    let size = Size::read(&mut reader, most)?;
    read_cells(&mut reader, colours, size.rows * size.cols, cells)?;
    reader.end()?;
    Ok(SheetFigures {
        colours,
        ticket,
        most,
        size,
    })
}

/// The sheet of a press that the input is, read into lent arrays. Whatever they held, those of its colours' names end with the places and lengths and 0
/// past them. Its cells stand first in theirs, which is as it was past them; a refused sheet leaves 0 in all three.
#[inline(always)]
pub fn read_sheet_into(
    press: usize,
    s: &[u8],
    starts: &mut [u16; MOST_COLOURS],
    lens: &mut [u8; MOST_COLOURS],
    cells: &mut [u8; ROOM],
) -> Result<SheetFigures, Fault>
    ensures { SheetInto (over cells.old (sheet_of press s.now)) (told_figures result) starts.new lens.new cells.new }
{
    let read = fill_sheet(press, s, starts, lens, cells);
    if read.is_err() {
        *starts = [0; MOST_COLOURS];
        *lens = [0; MOST_COLOURS];
        *cells = [0; ROOM];
    }
    read
}

/// The figures alone.
pub fn sheet_figures(press: usize, s: &[u8]) -> Result<SheetFigures, Fault>
    ensures { told_figures result ≡ sheet_figures (sheet_of press s.now) }
{
    let mut starts = [0; MOST_COLOURS];
    let mut lens = [0; MOST_COLOURS];
    let mut cells = [0; ROOM];
    read_sheet_into(press, s, &mut starts, &mut lens, &mut cells)
}

/// The same sheet as a value.
pub fn read_sheet(press: usize, s: &[u8]) -> Result<Sheet, Fault>
    ensures { told_sheet result ≡ sheet_of press s.now }
{
    let mut starts = [0; MOST_COLOURS];
    let mut lens = [0; MOST_COLOURS];
    let mut cells = [0; ROOM];
    let SheetFigures {
        colours: count,
        ticket,
        most,
        size,
    } = read_sheet_into(press, s, &mut starts, &mut lens, &mut cells)?;
    Ok(Sheet {
        colours: Colours {
            count,
            starts,
            lens,
        },
        ticket,
        most,
        size,
        cells,
    })
}

/// Rows and columns of a sheet of a press. A refused one has none.
pub fn sheet_size(press: usize, sheet: &[u8]) -> Size
    ensures { result ≡ size_of press sheet.now }
{
    match sheet_figures(press, sheet) {
        Ok(g) => g.size,
        Err(_) => Size { rows: 0, cols: 0 },
    }
}
