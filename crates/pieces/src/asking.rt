// One book asked for one sheet after another: the book is read and split into masks once, and each sheet gets its table and an answer, with no tree.
ghost use Rattle.std.specs.Prelude.{◌≡◌, Ok};
ghost use Rattle.names.specs.Pick.{fault};
ghost use Rattle.books.specs.Answer.{plain};
ghost use Rattle.books.specs.Reply.{number_of};
ghost use Rattle.books.specs.Told.{told_figures};
ghost use Rattle.pieces.specs.Masks.{masked, laid};
ghost use Rattle.pieces.specs.Split.{told_split};
ghost use Rattle.pieces.specs.Asking.{kept_with, split_book, whole_answer, unwritten, told_by, asked_with, ask_sheet};
ghost use Rattle.pieces.specs.inner.Small.{SmallRules};
ghost use Rattle.pieces.specs.inner.ForTable.{Shows};

use crate::cut::Table;
use crate::largest::fits_table;
use crate::masks::{ALL_MASKS, Joins, Masks};
use crate::{masks, piece};
use books::answer::{Answer, blame};
use books::book::read_book;
use books::numbering::number_sheet;
use books::reply::Reply;
use books::rule::Rule;
use books::sheet::SheetFigures;
use books::size::{ROOM, Size};
use names::colours::Colours;
use names::fault::Fault;

/// What is kept of a book from sheet to sheet, beside the lent book and the masks of its rules.
#[derive(Clone, Copy)]
pub struct Split {
    pub colours: Colours,
    pub start: u8,
    pub joins: Joins,
}

/// The answer of one sheet, with its ticket and its size. A refused sheet has the ticket 0, no rows and no columns.
#[derive(Clone, Copy)]
pub struct Asked {
    pub answer: Answer,
    pub ticket: usize,
    pub size: Size,
}

// The masks of the rules of a book, where the slice has their length.
fn lay(rules: &[Rule], masks: &mut [u32]) -> Joins
    requires { SmallRules rules.now }
    ensures { masked masks.new result ≡ laid 0 rules.now masks.old }
{
    if masks.len() != ALL_MASKS {
        return Joins { across: 0, down: 0 };
    }
    masks::split(rules, masks)
}

/// Reads a book, and writes the masks of its rules where they fill the slice.
pub fn split_book(book: &[u8], masks: &mut [u32]) -> Result<Split, Fault>
    ensures { kept_with (told_split result) masks.new ≡ split_book book.now masks.old }
{
    let family = read_book(book)?;
    let joins = lay(family.rules(), masks);
    Ok(Split {
        colours: family.colours,
        start: family.start as u8,
        joins,
    })
}

/// What the start motif's bit at the whole sheet answers, by any slice: where it has no room for the table of such a sheet, no motif has one.
pub fn whole_sheet(work: &[u32], size: Size, motif: u8) -> Reply
    ensures { number_of result ≡ whole_answer size.rows size.cols work.now motif }
{
    if fits_table(size, work.len()) {
        let table = Table {
            size,
            entries: work,
        };
        table.reply(motif)
    } else {
        Reply::NotDerived
    }
}

// What is answered of a sheet whose cells were numbered, with its table written. Masks that can be no book's have no sheet.
#[inline(always)]
fn tell(
    s: SheetFigures,
    cells: &[u8; ROOM],
    start: u8,
    joins: Joins,
    masks: &[u32],
    work: &mut [u32],
) -> Reply
    requires { Shows (told_figures (Ok s)) cells.now }
    ensures { unwritten (plain (number_of result)) work.new ≡ told_by (told_figures (Ok s)) cells.now start joins masks.now work.old }
{
    if work.len() < piece::count(s.size) {
        return Reply::WorkShort;
    }
    if masks::fits(masks.len(), joins) {
        Masks { masks, joins }.fill_from(cells, s.size, work);
        let table = Table {
            size: s.size,
            entries: work,
        };
        return table.reply(start);
    }
    Reply::NotDerived
}

/// Asks for one sheet of a press by what was kept of a book and the masks of its rules. The cells get the numbers that their colours have in the book, and
/// the work slice the table of pieces.
#[inline(always)]
pub fn ask_sheet(
    press: usize,
    book: &[u8],
    split: &Split,
    masks: &[u32],
    sheet: &[u8],
    cells: &mut [u8; ROOM],
    work: &mut [u32],
) -> Asked
    ensures { asked_with result cells.new work.new
        ≡ ask_sheet press book.now (told_split (Ok split.now)) masks.now sheet.now cells.old work.old }
{
    // A copy: by reference the loops over the table, which are made a part of this, take a twentieth more instructions.
    let c = split.colours;
    match number_sheet(press, book, c.count, &c.starts, &c.lens, sheet, cells) {
        Ok(s) => Asked {
            answer: tell(s, cells, split.start, split.joins, masks, work).answer(),
            ticket: s.ticket,
            size: s.size,
        },
        Err(fault) => Asked {
            answer: blame(2, fault),
            ticket: 0,
            size: Size { rows: 0, cols: 0 },
        },
    }
}
