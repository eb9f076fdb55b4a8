// The largest piece of a sheet at which a motif has its bit: of greatest area, and of the same area the earliest in the table.
ghost use Rattle.std.specs.Prelude.{◌≡◌, ◌≤◌};
ghost use Rattle.names.specs.Bits.{is_set};
ghost use Rattle.pieces.specs.Largest.{fits_table, marked, largest_of, largest_in};
ghost use Rattle.pieces.specs.Most.{most};
ghost use Rattle.pieces.specs.inner.Larger.{area_if};

use crate::cut::Table;
use crate::piece;
use crate::piece::{MOST, Piece};
use crate::pieces::Pieces;
use books::size;
use books::size::Size;
use names::word::is_set;

// The area of a piece whose entry has a motif's bit, and 0 of any other.
fn area_with(entry: u32, motif: u8, p: Piece) -> usize
    requires { (p.height ≤ most) × (p.width ≤ most) }
    ensures { result ≡ area_if (is_set entry motif) p }
{
    if is_set(entry, motif) {
        return piece::times(p.height, p.width);
    }
    0
}

impl<'a> Table<'a> {
    // The pieces are passed in the order of the table, and one is kept where it is larger than the one before. That one's area is kept with it, so that it is
    // not multiplied out again for each piece.
    pub(crate) fn largest(&self, motif: u8) -> Piece
        ensures { result ≡ largest_of (marked self.now.size.rows self.now.size.cols self.now.entries.now motif) self.now.size.rows self.now.size.cols }
    {
        let mut best = Piece {
            height: 0,
            width: 0,
            top: 0,
            left: 0,
        };
        let mut area = 0;
        for (piece, entry) in Pieces::new(self.size).zip(self.entries) {
            let other = area_with(*entry, motif, piece);
            if area < other {
                area = other;
                best = piece;
            }
        }
        best
    }
}

/// Whether a slice of so many entries has room for the table of a sheet that the code's numbers have room for.
#[tactic(auto, unfolding(crate::specs::Largest::fits_table, names::specs::Pick::and_then))]
pub fn fits_table(size: Size, entries: usize) -> bool
    ensures { result ≡ fits_table size.rows size.cols entries }
{
    size::within(MOST, size) && piece::count(size) <= entries
}

/// The largest piece at which a slice that has room for the table of a sheet has a motif's bit set, or no piece, which has no rows.
pub fn largest(work: &[u32], motif: u8, size: Size) -> Piece
    ensures { result ≡ largest_in work.now motif size.rows size.cols }
{
    if fits_table(size, work.len()) {
        return Table {
            size,
            entries: work,
        }
        .largest(motif);
    }
    Piece {
        height: 0,
        width: 0,
        top: 0,
        left: 0,
    }
}
