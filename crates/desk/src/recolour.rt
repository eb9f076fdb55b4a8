// One cell of a sheet recoloured: its byte is changed, and of the table only the entries of the pieces that have the cell are made anew.
ghost use Rattle.std.specs.Prelude.{◌≡◌, ◌+◌, ◌*◌, ◌≤◌, length, Ok, IfErr};
ghost use Rattle.books.specs.Reply.{number_of};
ghost use Rattle.books.specs.Size.{Within};
ghost use Rattle.pieces.specs.Most.{most};
ghost use Rattle.desk.specs.Recolour.{recolouring, Recolours};
ghost use Rattle.desk.specs.inner.ForCell.{PaintersDue, painters_of, lacking_for};
ghost use Rattle.desk.specs.inner.Told.{told_lack, told_answer};

use books::answer::{Answer, blame};
use books::numbering::number_sheet;
use books::press::PRESSES;
use books::reply::Reply;
use books::sheet::sheet_figures;
use books::size::{ROOM, Size};
use names::colours::Colours;
use pieces::asking::{split_book, whole_sheet};
use pieces::largest::fits_table;
use pieces::masks::{ALL_MASKS, PAINTERS_FROM};
use pieces::refill::refill;

// A cell by its row and its column, and the number that the colour it gets has in the sheet's list.
#[derive(Clone, Copy)]
struct Cell {
    row: usize,
    column: usize,
    colour: usize,
}

impl Cell {
    ghost use Rattle.desk.specs.Recolour.{has?, with_cell};
    ghost use Rattle.desk.specs.inner.ForCell.{CellDue};

    // Whether a sheet of a size with so many colours has the row, the column and the colour.
    fn is_on(self, size: Size, colours: usize) -> bool
        ensures { result ≡ has? size colours self.row self.column self.colour }
    {
        self.row < size.rows && (self.column < size.cols && self.colour < colours)
    }

    // Changes the byte of the cell, since a sheet ends with its cells, and tells the cell's place among them.
    fn put(self, sheet: &mut [u8], size: Size) -> usize
        requires { CellDue size (length sheet.old) self.row self.column self.colour }
        ensures { (result ≡ self.row * size.cols + self.column)
            × (sheet.new ≡ with_cell sheet.old size self.row self.column self.colour) }
    {
        let cells = size.rows * size.cols;
        let at = self.row * size.cols + self.column;
        let place = sheet.len() - cells + at;
        sheet[place] = self.colour as u8;
        at
    }
}

// Whether a cell of a sheet of a size with so many colours is recoloured: the sheet has the cell and the colour, and a work slice of so many entries has room
// for its table.
fn allowed(size: Size, colours: usize, cell: Cell, entries: usize) -> Result<(), Reply>
    requires { Within most size.rows size.cols }
    ensures lacks { told_lack result ≡ lacking_for size colours cell.row cell.column cell.colour entries }
    ensures some { IfErr result (λ lack. 1 ≤ number_of lack) }
{
    if !cell.is_on(size, colours) {
        return Err(Reply::NoSuchCell);
    }
    if !fits_table(size, entries) {
        return Err(Reply::WorkShort);
    }
    Ok(())
}

// The motifs that paint a cell of an accepted sheet, by the colours of a book and the masks of its rules. Nothing is refused there: the sheet was read
// before its byte was changed.
fn painters(
    press: usize,
    book: &[u8],
    colours: &Colours,
    masks: &[u32],
    sheet: &[u8],
    at: usize,
) -> u32
    requires { PaintersDue press sheet.now (length masks.now) at }
    ensures { result ≡ painters_of press book.now colours.now masks.now sheet.now at }
{
    let mut cells = [0; ROOM];
    let _ = number_sheet(
        press,
        book,
        colours.count,
        &colours.starts,
        &colours.lens,
        sheet,
        &mut cells,
    );
    masks[PAINTERS_FROM + cells[at] as usize]
}

// Recolours a cell, and tells what the sheet's table then answers, or what refuses it.
fn put_colour(
    press: usize,
    book: &[u8],
    sheet: &mut [u8],
    work: &mut [u32],
    cell: Cell,
) -> Result<Reply, Answer>
    ensures { Recolours (recolouring press book.now sheet.old work.old cell.row cell.column cell.colour)
        (told_answer result) sheet.new work.new }
{
    if press >= PRESSES {
        return Err(Reply::NoPress.answer());
    }
    let mut masks = [0; ALL_MASKS];
    let split = split_book(book, &mut masks).map_err(|fault| blame(1, fault))?;
    let figures = sheet_figures(press, sheet).map_err(|fault| blame(2, fault))?;
    if let Err(lack) = allowed(figures.size, figures.colours, cell, work.len()) {
        return Err(lack.answer());
    }
    let at = cell.put(sheet, figures.size);
    let paint = painters(press, book, &split.colours, &masks, sheet, at);
    refill(
        work,
        &masks,
        split.joins,
        figures.size,
        cell.row,
        cell.column,
        paint,
    );
    Ok(whole_sheet(work, figures.size, split.start))
}

/// Recolours one cell of a sheet of a press, by its row, its column and the number of a colour in the sheet's list. Where the work slice held the table of the
/// sheet, it then holds that of the sheet as it is left.
pub fn recolour(
    press: usize,
    book: &[u8],
    sheet: &mut [u8],
    work: &mut [u32],
    row: usize,
    column: usize,
    colour: usize,
) -> Answer
    ensures { Recolours (recolouring press book.now sheet.old work.old row column colour)
        result sheet.new work.new }
{
    let cell = Cell {
        row,
        column,
        colour,
    };
    match put_colour(press, book, sheet, work, cell) {
        Ok(reply) => reply.answer(),
        Err(answer) => answer,
    }
}
