// The size card of a family.
ghost use Rattle.sizes.specs.Outcome.{size_card, Leaves};

use sizes::calls;

/// Which sizes a book's family has on a press.
#[unsafe(no_mangle)]
pub extern "C" fn dv_size_card(press: usize, book: &[u8], card: &mut [u32]) -> u64
    ensures { Leaves (size_card press book.now card.old) result card.new }
{
    calls::dv_size_card(press, book, card)
}
