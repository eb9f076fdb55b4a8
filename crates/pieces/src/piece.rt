// A piece of a sheet, and its place in the table.
ghost use Rattle.std.specs.Prelude.{◌≡◌, ◌*◌, ◌≤◌, ◌<◌};
ghost use Rattle.books.specs.Size.{Within};
ghost use Rattle.pieces.specs.Area.{whole, tree_size};
ghost use Rattle.pieces.specs.Pieces.{stretches, total, slot_of};
ghost use Rattle.pieces.specs.inner.NextTo.{NextTo};
ghost use Rattle.pieces.specs.Most.{most};
ghost use Rattle.pieces.specs.inner.Room.{most_cells, Factors, Lies};

use books::press::WIDEST;
use books::size::Size;

/// The most rows, and the most columns, that the numbers have room for.
pub const MOST: usize = WIDEST;

/// So many rows and columns, from a top row and a left column on.
#[derive(Clone, Copy)]
pub struct Piece {
    pub height: usize,
    pub width: usize,
    pub top: usize,
    pub left: usize,
}

// A product that the numbers have room for.
pub(crate) fn times(a: usize, b: usize) -> usize
    requires { Factors a b }
    ensures { (result ≡ a * b) × (result ≤ most_cells * most_cells) }
{
    a * b
}

// The stretches of at most k cells in a row of n cells.
pub(crate) fn stretches_of(n: usize, k: usize) -> usize
    requires { (n ≤ most) × (k ≤ n) }
    ensures { (result ≡ stretches n k) × (result ≤ most_cells) }
{
    times(k, 2 * n + 1 - k) / 2
}

// The number of pieces of a sheet.
pub(crate) fn count(size: Size) -> usize
    requires { Within most size.rows size.cols }
    ensures { (result ≡ total size.rows size.cols) × (result ≤ most_cells * most_cells) }
{
    times(
        stretches_of(size.rows, size.rows),
        stretches_of(size.cols, size.cols),
    )
}

// How many numbers the tree of a sheet has: two a node.
pub(crate) fn numbers(size: Size) -> usize
    requires { Within most size.rows size.cols }
    ensures { result ≡ tree_size (whole size.rows size.cols) }
{
    2 * (2 * times(size.rows, size.cols) - 1)
}

impl Piece {
    ghost use Rattle.pieces.specs.Pieces.{piece};

    // One cell.
    pub(crate) fn cell(top: usize, left: usize) -> Self
        ensures { result ≡ piece 1 1 top left }
    {
        Piece {
            height: 1,
            width: 1,
            top,
            left,
        }
    }

    // The whole of a sheet.
    pub(crate) fn whole(size: Size) -> Self
        ensures { result ≡ whole size.rows size.cols }
    {
        Piece {
            height: size.rows,
            width: size.cols,
            top: 0,
            left: 0,
        }
    }

    // Where the table has a piece.
    pub(crate) fn slot(self, size: Size) -> usize
        requires { Lies size.rows size.cols self }
        ensures { (result ≡ slot_of size.rows size.cols self) × (result < total size.rows size.cols) }
    {
        let Size { rows, cols } = size;
        let u = self.height - 1;
        let v = self.width - 1;
        let flatter = times(stretches_of(rows, u), stretches_of(cols, cols));
        let narrower = times(rows - u, stretches_of(cols, v));
        flatter + (narrower + (times(self.top, cols - v) + self.left))
    }

    // The piece after it in the table: one to the right; at the end of a row, in the next row; after the last row, one column wider; and after the widest, one
    // row taller.
    pub(crate) fn next(self, size: Size) -> Self
        requires { Lies size.rows size.cols self }
        ensures { NextTo size.rows size.cols self result }
    {
        if self.left + self.width < size.cols {
            return Piece {
                left: self.left + 1,
                ..self
            };
        }
        if self.top + self.height < size.rows {
            return Piece {
                top: self.top + 1,
                left: 0,
                ..self
            };
        }
        if self.width < size.cols {
            return Piece {
                width: self.width + 1,
                top: 0,
                left: 0,
                ..self
            };
        }
        Piece {
            height: self.height + 1,
            ..Piece::cell(0, 0)
        }
    }
}
