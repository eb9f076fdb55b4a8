// The calls that only read a book or a sheet.
ghost use Rattle.std.specs.Prelude.{◌≡◌};
ghost use Rattle.books.specs.Answer.{packed};
ghost use Rattle.books.specs.Calls.{book_answer, sheet_answer, ticket_of};

use books::calls;

/// Whether these bytes are a book.
#[unsafe(no_mangle)]
pub extern "C" fn dv_read_book(book: &[u8]) -> u64
    ensures { result ≡ packed (book_answer book.now) 0 }
{
    calls::dv_read_book(book)
}

/// Whether these bytes are a sheet of a press, and its ticket.
#[unsafe(no_mangle)]
pub extern "C" fn dv_read_sheet(press: usize, sheet: &[u8]) -> u64
    ensures { result ≡ packed (sheet_answer press sheet.now) (ticket_of press sheet.now) }
{
    calls::dv_read_sheet(press, sheet)
}
