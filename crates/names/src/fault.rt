// Why an input is refused, and where.
ghost use Rattle.std.specs.Prelude.{◌≡◌};
ghost use Rattle.names.specs.Fault.{number_of};

/// What refuses an input.
#[derive(Clone, Copy, Debug, PartialEq, Eq)]
pub enum Refusal {
    /// The input ends inside or before something that is due.
    EndsEarly = 1,
    /// A number has a shorter form, or a fourth group.
    Misspelt = 2,
    /// A count, a length, rows or columns outside the range.
    OutOfRange = 3,
    /// A byte that may not stand where it does in a name.
    BadByte = 4,
    /// A name that an earlier one of the list equals.
    TwiceInList = 5,
    /// A motif or a colour whose number is not below the count.
    Unlisted = 6,
    /// A kind of rule that there is not.
    UnknownKind = 7,
    /// Bytes that follow the end.
    MoreFollows = 8,
    /// A rule that an earlier one of the book equals.
    RuleAgain = 18,
}

impl Refusal {
    /// The number that an answer has for it.
    pub fn number(self) -> u8
        ensures { result ≡ number_of self }
    {
        self as u8
    }

    /// The fault of this refusal at a place.
    pub fn at(self, place: usize) -> Fault
        ensures { result ≡ record { refusal = self; place = place } }
    {
        Fault {
            refusal: self,
            place,
        }
    }
}

/// A refusal, and the place of what it blames.
#[derive(Clone, Copy, Debug, PartialEq, Eq)]
pub struct Fault {
    pub refusal: Refusal,
    pub place: usize,
}
