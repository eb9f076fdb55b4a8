// Whether a sheet belongs to a family, with the table of its pieces and the derivation given.
ghost use Rattle.std.specs.Prelude.{◌≡◌};
ghost use Rattle.books.specs.Size.{Within};
ghost use Rattle.pieces.specs.Most.{most};
ghost use Rattle.pieces.specs.Derivation.{derivation, telling, Leaves, LeavesPacked};
ghost use Rattle.pieces.specs.inner.Verdict.{lacking, told_derived};

use crate::choice::{Cells, Chooser};
use crate::cut::Table;
use crate::masks::{ALL_MASKS, Masks};
use crate::{masks, piece};
use books::answer::{Answer, blame, pack};
use books::book::read_book;
use books::numbering::number_sheet;
use books::press::PRESSES;
use books::reply::Reply;
use books::size::{ROOM, Size};

/// The answer of a derivation, and how many trials its table took: 0 where none was written.
#[derive(Clone, Copy)]
pub struct Derived {
    pub answer: Answer,
    pub trials: usize,
}

// An answer before any trial.
fn untried(answer: Answer) -> Derived
    ensures { result ≡ telling answer 0 }
{
    Derived { answer, trials: 0 }
}

// What two slices lack for a sheet of a size: the work slice is too short, or else the tree slice.
fn lack(size: Size, entries: usize, numbers: usize) -> Option<Reply>
    requires { Within most size.rows size.cols }
    ensures { result ≡ lacking size.rows size.cols entries numbers }
{
    if entries < piece::count(size) {
        return Some(Reply::WorkShort);
    }
    if numbers < piece::numbers(size) {
        return Some(Reply::TreeShort);
    }
    None
}

// A derivation, or what is answered before any trial.
fn attempt(
    press: usize,
    book: &[u8],
    sheet: &[u8],
    work: &mut [u32],
    tree: &mut [u16],
) -> Result<Derived, Answer>
    ensures { Leaves (derivation press book.now sheet.now work.old tree.old)
        (told_derived result) work.new tree.new }
{
    if press >= PRESSES {
        return Err(Reply::NoPress.answer());
    }
    let family = read_book(book).map_err(|fault| blame(1, fault))?;
    let c = &family.colours;
    let mut cells = [0u8; ROOM];
    let s = number_sheet(press, book, c.count, &c.starts, &c.lens, sheet, &mut cells).map_err(
        |fault| blame(2, fault),
    )?;
    if let Some(short) = lack(s.size, work.len(), tree.len()) {
        return Err(short.answer());
    }
    let rules = family.rules();
    let mut masks = [0u32; ALL_MASKS];
    let joins = masks::split(rules, &mut masks);
    let trials = Masks {
        masks: &masks,
        joins,
    }
    .fill_from(&cells, s.size, work);
    let table = Table {
        size: s.size,
        entries: work,
    };
    let numbered = Cells {
        size: s.size,
        colours: &cells,
    };
    let answer = Chooser::new(rules, table, numbered)
        .judge(family.start as u8, tree)
        .answer();
    Ok(Derived { answer, trials })
}

/// Asks whether the family of a book has a sheet of a press. The work slice gets the table of pieces, and where it has one the tree slice the derivation given.
pub fn derive(
    press: usize,
    book: &[u8],
    sheet: &[u8],
    work: &mut [u32],
    tree: &mut [u16],
) -> Derived
    ensures { Leaves (derivation press book.now sheet.now work.old tree.old)
        result work.new tree.new }
{
    match attempt(press, book, sheet, work, tree) {
        Ok(derived) => derived,
        Err(answer) => untried(answer),
    }
}

/// The same for the C host, with the trials for the count.
pub fn dv_derive(press: usize, book: &[u8], sheet: &[u8], work: &mut [u32], tree: &mut [u16]) -> u64
    ensures { LeavesPacked (derivation press book.now sheet.now work.old tree.old)
        result work.new tree.new }
{
    let d = derive(press, book, sheet, work, tree);
    pack(d.answer, d.trials)
}
