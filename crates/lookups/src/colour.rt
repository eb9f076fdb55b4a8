// The name of a colour of a book, by its number: as a part of the lent book, and for the C host as place and length.
ghost use Rattle.std.specs.Prelude.{◌≡◌, ◌≤◌};
ghost use Rattle.names.specs.Part.{Part};
ghost use Rattle.names.specs.Spelling.{most_colours};
ghost use Rattle.books.specs.Book.{book_of};
ghost use Rattle.lookups.specs.Colour.{shown, shown_start, shown_place};
ghost use Rattle.lookups.specs.inner.Places.{PlaceFound, packed};

use books::book::read_book;
use names::colours::Colours;

// Where a name starts in what was lent, and how long it is.
#[derive(Clone, Copy)]
pub(crate) struct Place {
    start: u16,
    len: u8,
}

impl Place {
    // Both in one number, for the C host, which gets no part.
    pub(crate) fn pack(self) -> u64
        ensures { result ≡ packed self }
    {
        self.start as u64 + 4294967296 * self.len as u64
    }
}

// The place of a name of a colour list, if there is one with this number.
pub(crate) fn place_of(list: &Colours, number: usize) -> Option<Place>
    requires { list.now.count ≤ most_colours }
    ensures { PlaceFound list.now number result }
{
    if number < list.count {
        Some(Place {
            start: list.starts[number],
            len: list.lens[number],
        })
    } else {
        None
    }
}

// The same of a book. A refused one has no colours.
fn place_in(book: &[u8], number: usize) -> Option<Place>
    ensures { PlaceFound (book_of book.now).family.colours number result }
{
    place_of(&read_book(book).ok()?.colours, number)
}

/// A colour's name, as the part of the lent book that holds it, and an empty part where there is none.
pub fn colour(book: &[u8], number: usize) -> &[u8]
    ensures { Part book.entry (shown_start book.now number) (shown book.now number) result }
{
    match place_in(book, number) {
        Some(Place { start, len }) => {
            let end = start as usize + len as usize;
            &book[start as usize..end]
        }
        None => &book[..0],
    }
}

/// The same for the C host: where the name starts in the lent book and how long it is, or 0.
pub fn dv_colour(book: &[u8], number: usize) -> u64
    ensures { result ≡ shown_place book.now number }
{
    place_in(book, number).map_or(0, Place::pack)
}
