// The pieces of a sheet, for whoever goes from a piece to its parts without a table: each function takes any piece, and tests first that it lies on the sheet.
ghost use Rattle.std.specs.Prelude.{◌≡◌};
ghost use Rattle.pieces.specs.OnSheet.{stretch_in, lies_on, parts_on, covers_on};

use crate::choice::Cells;
use crate::part::{Part, Parts, parts_of, reach};
use crate::piece::{MOST, Piece, times};
use books::rule::Dir;
use books::size::Size;

// Whether a stretch, from a place on, lies in a row of so many cells: it has some, and the row no more than the numbers have room for.
#[tactic(auto, unfolding(crate::specs::OnSheet::stretch_in, names::specs::Pick::and_then))]
fn stretch_in(n: usize, from: usize, long: usize) -> bool
    ensures { result ≡ stretch_in n from long }
{
    0 < long && long <= n && n <= MOST && from <= n - long
}

// Whether a piece lies on a sheet that the numbers have room for.
#[tactic(auto, unfolding(crate::specs::OnSheet::lies_on, names::specs::Pick::and_then))]
fn lies_on(size: Size, p: Piece) -> bool
    ensures { result ≡ lies_on size p }
{
    stretch_in(size.rows, p.top, p.height) && stretch_in(size.cols, p.left, p.width)
}

/// The two parts of a piece of a sheet at a cut, for their motifs. Where the piece does not lie on the sheet, or the cut not in the piece, both are the piece
/// itself.
#[tactic(auto, unfolding(crate::specs::OnSheet::parts_on, names::specs::Pick::and_then))]
pub fn parts_on(size: Size, p: Piece, d: Dir, k: usize, l: u8, r: u8) -> Parts
    ensures { result ≡ parts_on size d k l r p }
{
    if lies_on(size, p) && k <= reach(p, d) {
        return parts_of(p, d, k, l, r);
    }
    Parts {
        first: Part { piece: p, motif: l },
        rest: Part { piece: p, motif: r },
    }
}

/// Whether a piece of a sheet is one cell of a colour, by the numbers of the cells' colours, row by row. A piece that does not lie on the sheet is none, and
/// no piece is where the sheet has more cells than numbers.
#[tactic(auto, unfolding(crate::specs::OnSheet::covers_on, names::specs::Pick::and_then, crate::specs::inner::Seen::has_colour))]
pub fn covers_on(colours: &[u8], size: Size, p: Piece, colour: u8) -> bool
    ensures { result ≡ covers_on size colours.now p colour }
{
    if !lies_on(size, p) {
        return false;
    }
    times(size.rows, size.cols) <= colours.len() && Cells { size, colours }.covers(p, colour)
}
