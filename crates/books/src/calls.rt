// The calls on one book or one sheet, for the C host.
ghost use Rattle.std.specs.Prelude.{◌≡◌};
ghost use Rattle.books.specs.Answer.{packed};
ghost use Rattle.books.specs.Calls.{book_answer, sheet_answer, ticket_of};

use crate::answer::{blame, pack};
use crate::book::read_book;
use crate::press::PRESSES;
use crate::reply::Reply;
use crate::sheet::sheet_figures;

/// Whether these bytes are a book; the answer blames input 1.
pub fn dv_read_book(book: &[u8]) -> u64
    ensures { result ≡ packed (book_answer book.now) 0 }
{
    match read_book(book) {
        Ok(_) => pack(Reply::Accepted.answer(), 0),
        Err(f) => pack(blame(1, f), 0),
    }
}

/// Whether these bytes are a sheet of a press; the answer blames input 1, and its count is the sheet's ticket.
pub fn dv_read_sheet(press: usize, sheet: &[u8]) -> u64
    ensures { result ≡ packed (sheet_answer press sheet.now) (ticket_of press sheet.now) }
{
    if press >= PRESSES {
        return pack(Reply::NoPress.answer(), 0);
    }
    match sheet_figures(press, sheet) {
        Ok(g) => pack(Reply::Accepted.answer(), g.ticket),
        Err(f) => pack(blame(1, f), 0),
    }
}
