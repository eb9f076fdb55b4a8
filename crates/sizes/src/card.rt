// The rows of the card, from the table of sizes.
ghost use Rattle.std.specs.Prelude.{◌≡◌, ◌*◌, ◌≤◌, ◌<◌, length};
ghost use Rattle.books.specs.Keeps.{most_motifs};
ghost use Rattle.books.specs.Size.{room};
ghost use Rattle.sizes.specs.Table.{table_by};
ghost use Rattle.sizes.specs.inner.Rows.{row_bits, CardDue, row_of, rows_of, RowsWrote};

use crate::table::Filler;
use books::size::ROOM;
use pieces::masks::Joins;

// One row: the start motif's bit in each of its entries.
fn row(entries: &[u32], start: u32) -> u32
    requires { (length entries.now ≤ row_bits) × (start < most_motifs) }
    ensures { result ≡ row_of entries.now start }
{
    let mut found = 0u32;
    for (j, entry) in entries.iter().enumerate() {
        found += ((*entry >> start) % 2) << (j as u32);
    }
    found
}

// All rows; answers how many bits of them are set.
fn write_rows(sizes: &[u32], most: usize, start: u32, card: &mut [u32]) -> usize
    requires { CardDue most (length sizes.now) start (length card.old) }
    ensures { RowsWrote (rows_of sizes.now most start most) card.old result card.new }
{
    let mut count = 0;
    for i in 0..most {
        let at = i * most;
        let r = row(&sizes[at..at + most], start);
        card[i] = r;
        count += u32::count_ones(r) as usize;
    }
    count
}

// The card of at most so many rows and columns by the masks of a family; answers how many sizes it has.
pub(crate) fn write_card(
    masks: &[u32],
    joins: Joins,
    start: u8,
    most: usize,
    card: &mut [u32],
) -> usize
    requires { CardDue most room start (length card.old) }
    ensures { RowsWrote (rows_of (table_by masks.now joins most (most * most)) most start most)
        card.old result card.new }
{
    let mut sizes = [0u32; ROOM];
    Filler::new(masks, joins, most).fill(&mut sizes, most * most);
    write_rows(&sizes, most, start as u32, card)
}
