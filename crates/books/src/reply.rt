// What a call answers of itself, where it blames no input.
ghost use Rattle.std.specs.Prelude.{◌≡◌};
ghost use Rattle.books.specs.Answer.{plain};
ghost use Rattle.books.specs.Reply.{number_of};

use crate::answer::{Answer, unblamed};

/// What a call answers that blames no input: docs/RULES.md says when each is given.
#[derive(Clone, Copy, Debug, PartialEq, Eq)]
pub enum Reply {
    /// Accepted; asked why not, that there is a reason.
    Accepted = 0,
    /// The work slice is shorter than needed.
    WorkShort = 9,
    /// The tree slice is shorter than needed.
    TreeShort = 10,
    /// The start motif does not derive the sheet.
    NotDerived = 11,
    /// A combination exceeds 64 colours, 32 motifs or 200 rules.
    TooMany = 12,
    /// The slice for what is made is shorter than needed.
    OutShort = 13,
    /// Asked why a sheet is not in the family, though it is.
    InFamily = 15,
    /// Lent nodes are no derivation of the sheet.
    WrongTree = 16,
    /// The start motif of a book to be tidied cannot be rewritten to colours.
    StartLost = 17,
    /// The sheet has not got the row, the column or the colour that a cell is recoloured by.
    NoSuchCell = 19,
    /// A sheet of more than 16 cells is asked of the plain engine.
    TooManyCells = 20,
    /// No press has the number.
    NoPress = 21,
}

impl Reply {
    /// The number that an answer has for it.
    pub fn number(self) -> u8
        ensures { result ≡ number_of self }
    {
        self as u8
    }

    /// The answer that tells it, at no place.
    pub fn answer(self) -> Answer
        ensures { result ≡ plain (number_of self) }
    {
        unblamed(self.number())
    }
}
