// Entries of a table made anew: those of the pieces that have a cell, smaller pieces first.
ghost use Rattle.std.specs.Prelude.{◌≡◌, ◌+◌, ◌-◌, ◌≤◌, length};
ghost use Rattle.pieces.specs.Firing.{joins_fired};
ghost use Rattle.pieces.specs.Refill.{refills?, refilled_by};
ghost use Rattle.pieces.specs.inner.Refill.{goes_further, OnWith, NextWith};

use crate::largest::fits_table;
use crate::masks;
use crate::masks::{Joins, Masks};
use crate::piece::Piece;
use crate::table::Placed;
use books::size::Size;

// The first place from which a stretch of so many cells has a cell.
fn first_with(cell: usize, long: usize) -> usize
    requires { 1 ≤ long }
    ensures { result ≡ cell + 1 - long }
{
    if long <= cell { cell - long + 1 } else { 0 }
}

// Whether a stretch, one place further, still has the cell and lies in the row.
#[tactic(auto, unfolding(crate::specs::inner::Refill::goes_further, names::specs::Pick::and_then))]
fn further(n: usize, cell: usize, from: usize, long: usize) -> bool
    requires { from + long ≤ n }
    ensures { result ≡ goes_further n cell from long }
{
    from < cell && from + long < n
}

// The next piece in the table that has the cell: one to the right; else from the left again, one row lower; else one column wider; and after the widest,
// one row taller.
fn next_with(size: Size, row: usize, column: usize, p: Piece) -> Piece
    requires { OnWith size row column p }
    ensures { NextWith size.rows size.cols row column p result }
{
    if further(size.cols, column, p.left, p.width) {
        return Piece {
            left: p.left + 1,
            ..p
        };
    }
    if further(size.rows, row, p.top, p.height) {
        return Piece {
            top: p.top + 1,
            left: first_with(column, p.width),
            ..p
        };
    }
    if p.width < size.cols {
        return Piece {
            height: p.height,
            width: p.width + 1,
            top: first_with(row, p.height),
            left: first_with(column, p.width + 1),
        };
    }
    Piece {
        height: p.height + 1,
        width: 1,
        top: first_with(row, p.height + 1),
        left: column,
    }
}

impl<'a> Masks<'a> {
    ghost use Rattle.pieces.specs.Pieces.{total};
    ghost use Rattle.pieces.specs.Refill.{refilled, due_by};
    ghost use Rattle.pieces.specs.inner.Refill.{RefillDue};

    // The entry that is due to a piece: a cell's painters, and of a larger piece what its cuts give.
    fn due(&self, work: &[u32], x: Placed, paint: u32) -> u32
        requires { total x.size.rows x.size.cols ≤ length work.now }
        ensures { result ≡ due_by (joins_fired self.now.masks.now self.now.joins) paint x.size.rows x.size.cols work.now x.piece }
    {
        if x.piece.height + x.piece.width == 2 {
            return paint;
        }
        self.entry_of(work, x, 0).heads
    }

    // The entries of the pieces that have a cell, made anew one after the other.
    fn refill_cells(&self, work: &mut [u32], size: Size, row: usize, column: usize, paint: u32)
        requires { RefillDue size work.old row column }
        ensures { work.new
            ≡ refilled (due_by (joins_fired self.now.masks.now self.now.joins) paint size.rows size.cols) size.rows size.cols row column work.old }
    {
        let mut p = Piece::cell(row, column);
        while p.height <= size.rows {
            let k = p.slot(size);
            let x = Placed {
                size,
                piece: p,
                slot: k,
            };
            let e = self.due(work, x, paint);
            work[k] = e;
            p = next_with(size, row, column, p);
        }
    }
}

// Whether a slice of so many entries has room for the table of a sheet, so many masks are a book's, and the sheet has the cell.
fn refills(
    size: Size,
    entries: usize,
    masks: usize,
    joins: Joins,
    row: usize,
    column: usize,
) -> bool
    ensures { result ≡ refills? size entries masks joins row column }
{
    fits_table(size, entries) && masks::fits(masks, joins) && row < size.rows && column < size.cols
}

/// Makes anew the entries of the pieces of a sheet that have a cell, by masks and the cell's painters. Nothing is written where the slice has no room for the
/// table of such a sheet, the masks can be no book's, or the sheet has not got the cell.
pub fn refill(
    work: &mut [u32],
    masks: &[u32],
    joins: Joins,
    size: Size,
    row: usize,
    column: usize,
    paint: u32,
)
    ensures { work.new ≡ refilled_by masks.now joins size row column paint work.old }
{
    if refills(size, work.len(), masks.len(), joins, row, column) {
        Masks { masks, joins }.refill_cells(work, size, row, column, paint);
    }
}
