// The size card as a call: from a lent book into a lent slice.
ghost use Rattle.sizes.specs.Outcome.{size_card, Answers, Leaves};
ghost use Rattle.sizes.specs.inner.Told.{told_card};

use crate::card::write_card;
use books::answer::{Answer, blame, pack};
use books::press::{PRESSES, greatest};
use books::reply::Reply;
use pieces::asking::split_book;
use pieces::masks::ALL_MASKS;

/// The answer, and how many sizes the family has. A struct, and no Result: `Answers` names both fields, and a C host gets both.
#[derive(Clone, Copy)]
pub struct CardAnswer {
    pub answer: Answer,
    pub sizes: usize,
}

// Writes the size card; the number of its sizes, or what refuses it.
fn fill_card(press: usize, book: &[u8], card: &mut [u32]) -> Result<usize, Answer>
    ensures { Answers (size_card press book.now card.old) (told_card result) card.new }
{
    if press >= PRESSES {
        return Err(Reply::NoPress.answer());
    }
    let mut masks = [0; ALL_MASKS];
    let split = split_book(book, &mut masks).map_err(|fault| blame(1, fault))?;
    let most = greatest(press);
    if card.len() < most {
        return Err(Reply::OutShort.answer());
    }
    let count = write_card(&masks, split.joins, split.start, most, card);
    Ok(count)
}

/// Writes the size card of a book's family on a press: bit c - 1 of number r - 1 is set exactly when the family has a sheet of r rows and c columns.
pub fn size_card(press: usize, book: &[u8], card: &mut [u32]) -> CardAnswer
    ensures { Answers (size_card press book.now card.old) result card.new }
{
    match fill_card(press, book, card) {
        Ok(sizes) => CardAnswer {
            answer: Reply::Accepted.answer(),
            sizes,
        },
        Err(answer) => CardAnswer { answer, sizes: 0 },
    }
}

/// The same for the C host.
pub fn dv_size_card(press: usize, book: &[u8], card: &mut [u32]) -> u64
    ensures { Leaves (size_card press book.now card.old) result card.new }
{
    let r = size_card(press, book, card);
    pack(r.answer, r.sizes)
}
