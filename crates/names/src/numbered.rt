// Refusals by any number, for a caller that has others than those of `Refusal`.
ghost use Rattle.std.specs.Prelude.{◌≡◌, ◌<◌, OnErr, IfOk};
ghost use Rattle.names.specs.Fault.{told_fault, told_numbered};
ghost use Rattle.names.specs.Number.{number_below};
ghost use Rattle.names.specs.Pick.{fault};
ghost use Rattle.names.specs.Told.{told_by_number};

use crate::fault::Fault;
use crate::reader::Reader;

/// A number that refuses, and the place of what it blames; 0 at 0 is no fault.
#[derive(Clone, Copy, Debug, PartialEq, Eq)]
pub struct Numbered {
    pub number: u8,
    pub place: usize,
}

/// A number at a place.
pub fn fault(number: u8, place: usize) -> Numbered
    ensures { told_numbered result ≡ fault number place }
{
    Numbered { number, place }
}

impl Fault {
    /// The same fault by its number.
    pub fn numbered(self) -> Numbered
        ensures { told_numbered result ≡ told_fault self }
    {
        fault(self.refusal.number(), self.place)
    }
}

impl<'a> Reader<'a> {
    /// A number below a count, as `below` reads it, refused by any number.
    #[tactic(auto, unfolding(crate::specs::Number::number_below))]
    pub fn below_by_number(&mut self, count: usize, number: u8) -> Result<usize, Numbered>
        ensures read { told_by_number result self.new.at ≡ number_below self.old.bytes.now self.old.at count number }
        ensures below { IfOk result (λ value. value < count) }
        ensures same { self.new.bytes ≡ self.old.bytes }
        ensures stays { OnErr result (self.new.at ≡ self.old.at) }
    {
        let place = self.at;
        let value = self.number().map_err(Fault::numbered)?;
        if count <= value {
            self.at = place;
            return Err(fault(number, place));
        }
        Ok(value)
    }
}
