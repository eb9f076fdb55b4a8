// Whether a sheet belongs to a family, by the plain search: for a sheet of at most 16 cells, with no slice lent for the work.
ghost use Rattle.std.specs.Prelude.{◌≡◌};
ghost use Rattle.books.specs.Answer.{packed};
ghost use Rattle.plain.specs.Outcome.{plain_answer};

use crate::search::{Placed, Sheet};
use books::answer::{Answer, blame, pack};
use books::book::read_book;
use books::numbering::number_sheet;
use books::press::PRESSES;
use books::reply::Reply;
use books::size::ROOM;
use pieces::piece::Piece;

/// The most cells that the search takes. Every call ends, but the time grows with the ways in which a sheet comes apart.
pub const MOST_CELLS: usize = 16;

/// Asks whether the family of a book has a sheet of a press: first whether there is such a press, then the book's fault, then the sheet's, then whether the sheet
/// has too many cells.
pub fn plain(press: usize, book: &[u8], sheet: &[u8]) -> Answer
    ensures { result ≡ plain_answer press book.now sheet.now }
{
    if press >= PRESSES {
        return Reply::NoPress.answer();
    }
    let family = match read_book(book) {
        Ok(family) => family,
        Err(fault) => return blame(1, fault),
    };
    let c = family.colours;
    let mut cells = [0u8; ROOM];
    let size = match number_sheet(press, book, c.count, &c.starts, &c.lens, sheet, &mut cells) {
        Ok(figures) => figures.size,
        Err(fault) => return blame(2, fault),
    };
    if size.rows * size.cols > MOST_CELLS {
        return Reply::TooManyCells.answer();
    }
    let sheet = Sheet {
        rules: family.rules(),
        cells: &cells,
        size,
    };
    let whole = Placed {
        sheet: &sheet,
        piece: Piece {
            height: size.rows,
            width: size.cols,
            top: 0,
            left: 0,
        },
    };
    let reply = if whole.derives(family.start as u8) {
        Reply::Accepted
    } else {
        Reply::NotDerived
    };
    reply.answer()
}

/// The same for the C host.
pub fn dv_plain(press: usize, book: &[u8], sheet: &[u8]) -> u64
    ensures { result ≡ packed (plain_answer press book.now sheet.now) 0 }
{
    pack(plain(press, book, sheet), 0)
}
