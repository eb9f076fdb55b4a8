// The cells of a sheet by the numbers that their colours have in a book. Where many sheets are ordered from one book, each is numbered by the
// colours that were read of the book once.
ghost use Rattle.std.specs.Prelude.{◌≡◌, get_or};
ghost use Rattle.names.specs.Colours.{list_of};
ghost use Rattle.names.specs.Spelling.{most_colours};
ghost use Rattle.books.specs.Numbering.{Numbers};
ghost use Rattle.books.specs.Told.{told_figures};
ghost use Rattle.books.specs.inner.Key.{numbered, CellsFit};

use crate::sheet::{SheetFigures, read_sheet_into};
use crate::size::ROOM;
use names::colours::{MOST_COLOURS, find_name};
use names::fault::Fault;
use names::name::{front, tail};

// Each cell gets the number that the key has for its colour.
fn number_cells(key: &[u8; MOST_COLOURS], count: usize, cells: &mut [u8; ROOM])
    requires { CellsFit most_colours count cells.old }
    ensures { cells.new ≡ numbered (λ v. get_or key.now v 0) count cells.old }
{
    let numbered = &mut cells[..count];
    for cell in numbered.iter_mut() {
        *cell = key[usize::from(*cell)];
    }
}

/// Reads a sheet of a press for a book whose colours were read, into a lent array: each of its cells has the number of its colour in the book, or the count
/// of the book's colours where the book lacks it. Past them the array is as it was; a refused sheet leaves 0 in all of it. A colour is looked for once, and
/// not at each of its cells. No book has more than 64 colours: by more, no cell is numbered. The book's colours are lent in their parts, since a struct would
/// be copied at every sheet of a run.
#[inline(always)]
pub fn number_sheet<'a>(
    press: usize,
    book: &[u8],
    count: usize,
    starts: &'a [u16; MOST_COLOURS],
    lens: &'a [u8; MOST_COLOURS],
    sheet: &[u8],
    cells: &mut [u8; ROOM],
) -> Result<SheetFigures, Fault>
    ensures { Numbers press book.now (list_of count starts.now lens.now) sheet.now cells.old (told_figures result) cells.new }
{
    let mut own_starts = [0; MOST_COLOURS];
    let mut own_lens = [0; MOST_COLOURS];
    let g = read_sheet_into(press, sheet, &mut own_starts, &mut own_lens, cells)?;
    if MOST_COLOURS < count {
        *cells = [0; ROOM];
        return Ok(g);
    }
    let mut key = [0; MOST_COLOURS];
    // By index, since starts, lengths and key are three arrays side by side; `Colours` and the C host's look-ups have them so.
    for i in 0..g.colours {
        let name = front(
            tail(sheet, usize::from(own_starts[i])),
            usize::from(own_lens[i]),
        );
        key[i] = find_name(book, count, starts, lens, name).unwrap_or(count) as u8;
    }
    number_cells(&key, g.size.rows * g.size.cols, cells);
    Ok(g)
}
