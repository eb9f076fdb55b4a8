// One size of a family, without its card: the parts of a size have no more rows and columns than it, so that no others are asked for.
ghost use Rattle.std.specs.Prelude.{◌≡◌};
ghost use Rattle.sizes.specs.Table.{has_size_by};

use crate::table::Filler;
use books::press::greatest;
use books::rule::MOST_MOTIFS;
use books::size;
use books::size::{ROOM, Size};
use pieces::masks::Joins;

// So many sizes are asked for in a small array, since clearing the whole room would take longer than filling it.
const FEW: usize = 64;

/// Whether a motif has a size, by the masks of a family. No motif beyond the last has a size, and no size beyond the card of the press is had.
pub fn has_size(press: usize, masks: &[u32], joins: Joins, motif: u8, size: Size) -> bool
    ensures { result ≡ has_size_by press masks.now joins motif size.rows size.cols }
{
    if motif as usize >= MOST_MOTIFS || !size::within(greatest(press), size) {
        return false;
    }
    let end = size.rows * size.cols;
    if end <= FEW {
        Filler::new(masks, joins, size.cols).last_has::<FEW>(motif, end)
    } else {
        Filler::new(masks, joins, size.cols).last_has::<ROOM>(motif, end)
    }
}
