// A book and a sheet of a press, read for the trees that are held to them.
ghost use Rattle.std.specs.Prelude.{IfOk, IfErr};

use crate::held::Held;
use books::answer::{Answer, blame};
use books::book::read_book;
use books::numbering::number_sheet;
use books::press::PRESSES;
use books::reply::Reply;
use books::size::ROOM;

impl Held {
    ghost use Rattle.trees.specs.inner.Held.{Tells, Refused};

    // Reads both, or gives the answer that refuses them: that there is no such press; then the book's fault; then the sheet's.
    pub(crate) fn read(press: usize, book: &[u8], sheet: &[u8]) -> Result<Held, Answer>
        ensures tells { IfOk result (λ held. Tells press book.now sheet.now held) }
        ensures refused { IfErr result (λ answer. Refused press book.now sheet.now answer) }
    {
        if press >= PRESSES {
            return Err(Reply::NoPress.answer());
        }
        let family = match read_book(book) {
            Ok(family) => family,
            Err(fault) => return Err(blame(1, fault)),
        };
        let c = family.colours;
        let mut cells = [0; ROOM];
        let size = match number_sheet(press, book, c.count, &c.starts, &c.lens, sheet, &mut cells) {
            Ok(figures) => figures.size,
            Err(fault) => return Err(blame(2, fault)),
        };
        Ok(Held {
            family,
            size,
            cells,
        })
    }
}
