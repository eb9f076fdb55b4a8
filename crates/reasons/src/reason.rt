// What is told of a sheet that is not in the family.
ghost use Rattle.std.specs.Prelude.{◌≡◌};

use pieces::piece::Piece;

/// Nothing, of a refused call and of a sheet that is in the family; a cell whose colour no rule names; that the family has no sheet of this size; the
/// largest piece that the start motif derives; or that it derives no piece.
/// No reason is a variant, and no `None`, since `Holds` and `First` say of it what they say of the others.
#[derive(Clone, Copy)]
pub enum Reason {
    NoReason,
    Unnamed {
        row: usize,
        column: usize,
    },
    NoSuchSize,
    Largest {
        top: usize,
        left: usize,
        height: usize,
        width: usize,
    },
    NoPiece,
}

impl Reason {
    ghost use Rattle.reasons.specs.Reason.{values_of, kind, packed_reason, Fits};
    ghost use Rattle.reasons.specs.Why.{piece_reason};

    // The reason that names a piece; no piece has no rows.
    pub(crate) fn of_piece(piece: Piece) -> Reason
        ensures { result ≡ piece_reason piece }
    {
        if piece.height == 0 {
            return Reason::NoPiece;
        }
        Reason::Largest {
            top: piece.top,
            left: piece.left,
            height: piece.height,
            width: piece.width,
        }
    }

    // The reason's number for a C host.
    fn number(self) -> usize
        ensures { result ≡ kind self }
    {
        match self {
            Reason::NoReason => 0,
            Reason::Unnamed { .. } => 1,
            Reason::NoSuchSize => 2,
            Reason::Largest { .. } => 3,
            Reason::NoPiece => 4,
        }
    }

    // The count that a C host gets: the number, and above it what the reason names, each in its bits as the header has them.
    pub(crate) fn count(self) -> usize
        requires { Fits (values_of self) }
        ensures { result ≡ packed_reason self }
    {
        let kind = self.number();
        match self {
            Reason::Unnamed { row, column } => kind + 8 * row + 256 * column,
            Reason::Largest {
                top: row,
                left: column,
                height,
                width,
            } => kind + 8 * row + 256 * column + 8192 * height + 262144 * width,
            _ => kind,
        }
    }
}
