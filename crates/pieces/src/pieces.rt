// The pieces of a sheet, in the order of its table.
ghost use Rattle.std.specs.Prelude.{◌≡◌};
ghost use Rattle.books.specs.Size.{Within};
ghost use Rattle.pieces.specs.Most.{most};
ghost use Rattle.pieces.specs.inner.Passing.{Passing};

use crate::piece;
use crate::piece::Piece;
use books::size::Size;

// The pieces from one on.
#[derive(Drop)]
pub(crate) struct Pieces {
    size: Size,
    next: Piece,
    slot: usize,
    count: usize,
    ghost passing: { Passing size next slot count },
}

impl Pieces {
    ghost use Rattle.std.specs.Prelude.{List};
    ghost use Rattle.pieces.specs.Pieces.{pieces};
    ghost use Rattle.pieces.specs.inner.Left.{pieces_left};

    #[tactic(auto, using(crate::proofs::PassingPieces::passing_start))]
    pub(crate) fn new(size: Size) -> Self
        requires { Within most size.rows size.cols }
        ensures { pieces_left result ≡ pieces size.rows size.cols }
    {
        Pieces {
            size,
            next: Piece::cell(0, 0),
            slot: 0,
            count: piece::count(size),
        }
    }
}

impl Iterator for Pieces {
    ghost use Rattle.std.specs.Prelude.{◌-◌};
    ghost use Rattle.std.specs.Iterator.{at_most, YieldsFirst};
    ghost use Rattle.pieces.specs.inner.Left.{pieces_left};

    type Item = Piece;

    ghost next_gives = { YieldsFirst pieces_left };

    ghost remaining = { λ s. at_most (s.count - s.slot) };

    #[tactic(auto, using(crate::proofs::PassingPieces::passing_first, crate::proofs::PassingPieces::passing_none))]
    fn next(&mut self) -> Option<Piece> {
        if self.slot == self.count {
            return None;
        }
        let piece = self.next;
        self.next = piece.next(self.size);
        self.slot += 1;
        Some(piece)
    }
}
