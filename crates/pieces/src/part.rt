// The two parts of a piece that is cut across or down: each is again a piece, with a motif of its own.
ghost use Rattle.std.specs.Prelude.{◌≡◌};
ghost use Rattle.pieces.specs.Parts.{reach};
ghost use Rattle.pieces.specs.inner.PartsOf.{CutIn, parts_of};

use crate::piece::Piece;
use books::rule::Dir;

/// A piece and its motif.
#[derive(Clone, Copy)]
pub struct Part {
    pub piece: Piece,
    pub motif: u8,
}

/// The first columns of a piece, or rows, and the rest of them.
#[derive(Clone, Copy)]
pub struct Parts {
    pub first: Part,
    pub rest: Part,
}

/// How far a piece reaches in a direction: its columns, or its rows.
pub fn reach(p: Piece, d: Dir) -> usize
    ensures { result ≡ reach d p }
{
    match d {
        Dir::Across => p.width,
        Dir::Down => p.height,
    }
}

impl Piece {
    ghost use Rattle.pieces.specs.Parts.{first_part, rest_part};

    // Its first columns, or its first rows.
    pub(crate) fn first_part(self, d: Dir, k: usize) -> Self
        ensures { result ≡ first_part d k self }
    {
        match d {
            Dir::Across => Piece { width: k, ..self },
            Dir::Down => Piece { height: k, ..self },
        }
    }

    // The rest of them. The piece lies on a sheet that there is room for and the cut in the piece, so that nothing wraps.
    pub(crate) fn rest_part(self, d: Dir, k: usize) -> Self
        requires { CutIn d k self }
        ensures { result ≡ rest_part d k self }
    {
        match d {
            Dir::Across => Piece {
                width: self.width - k,
                left: self.left + k,
                ..self
            },
            Dir::Down => Piece {
                height: self.height - k,
                top: self.top + k,
                ..self
            },
        }
    }
}

// The two parts of a piece at a cut, for their motifs.
pub(crate) fn parts_of(p: Piece, d: Dir, k: usize, l: u8, r: u8) -> Parts
    requires { CutIn d k p }
    ensures { result ≡ parts_of d k l r p }
{
    Parts {
        first: Part {
            piece: p.first_part(d, k),
            motif: l,
        },
        rest: Part {
            piece: p.rest_part(d, k),
            motif: r,
        },
    }
}
