// Reading goes left to right, and stops at the first fault: the reader then stays where it was.
ghost use Rattle.std.specs.Prelude.{◌≡◌, ◌<◌, ◌≤◌, ◌+◌, length, drop, OnErr, IfOk};
ghost use Rattle.names.specs.Pick.{fault};
ghost use Rattle.names.specs.Fault.{number_of, told_fault};
ghost use Rattle.names.specs.Onward.{ending};
ghost use Rattle.names.specs.Number.{last_group, longer_at, number_at, number_in, number_below};
ghost use Rattle.names.specs.Name.{name_of};
ghost use Rattle.names.specs.Colours.{named_at, colour_at};
ghost use Rattle.names.specs.Told.{told, told_with_place, told_name, told_end};

use crate::fault::{Fault, Refusal};
use crate::name::{LONGEST_NAME, first_unshown, front, tail};

/// An input, and the place in it that is read next.
#[derive(Drop)]
pub struct Reader<'a> {
    pub bytes: &'a [u8],
    pub at: usize,
}

/// Where a name stands in the input.
#[derive(Clone, Copy)]
pub struct Span {
    pub start: usize,
    pub len: usize,
}

// The input ends where a byte is due.
fn ends_early(bytes: &[u8]) -> Fault
    ensures { told_fault result ≡ fault 1 (length bytes.now) }
{
    Refusal::EndsEarly.at(bytes.len())
}

// A number that ends in this group. A last group of 0 adds nothing: the number has a shorter form, and is refused at its first byte.
#[tactic(auto, unfolding(crate::specs::Number::last_group))]
fn last_group(at: usize, group: usize, value: usize, next: usize) -> Result<(usize, usize), Fault>
    ensures { told_with_place result ≡ last_group at group value next }
{
    if group == 0 {
        return Err(Refusal::Misspelt.at(at));
    }
    Ok((value, next))
}

// The number at a place whose first group, low, is not its last. It stays out of the loops that read cells, whose numbers mostly have one group.
#[cold]
#[inline(never)]
#[tactic(auto, unfolding(crate::specs::Number::longer_at))]
fn longer(bytes: &[u8], at: usize, low: usize) -> Result<(usize, usize), Fault>
    requires { (at < length bytes.now) × (low < 128) }
    ensures { told_with_place result ≡ longer_at bytes.now at low }
{
    let Some(second) = bytes.get(at + 1) else {
        return Err(ends_early(bytes));
    };
    let second = usize::from(*second);
    if second < 128 {
        return last_group(at, second, low + 128 * second, at + 2);
    }
    let Some(third) = bytes.get(at + 2) else {
        return Err(ends_early(bytes));
    };
    let third = usize::from(*third);
    if third < 128 {
        return last_group(
            at,
            third,
            low + 128 * (second % 128) + 16384 * third,
            at + 3,
        );
    }
    Err(Refusal::Misspelt.at(at))
}

impl<'a> Reader<'a> {
    /// Begins at the front.
    pub fn new(bytes: &'a [u8]) -> Self
        ensures bytes { result.bytes ≡ bytes.entry }
        ensures at { result.at ≡ 0 }
    {
        Reader { bytes, at: 0 }
    }

    // The number that stands next, and the place after it.
    #[tactic(auto, unfolding(crate::specs::Number::number_at))]
    fn next_number(&self) -> Result<(usize, usize), Fault>
        ensures { told_with_place result ≡ number_at self.now.bytes.now self.now.at }
    {
        let Some(first) = self.bytes.get(self.at) else {
            return Err(ends_early(self.bytes));
        };
        let first = usize::from(*first);
        if first < 128 {
            return Ok((first, self.at + 1));
        }
        longer(self.bytes, self.at, first % 128)
    }

    /// The number that stands next.
    pub fn number(&mut self) -> Result<usize, Fault>
        ensures read { told result self.new.at ≡ number_at self.old.bytes.now self.old.at }
        ensures same { self.new.bytes ≡ self.old.bytes }
        ensures stays { OnErr result (self.new.at ≡ self.old.at) }
    {
        let (value, next) = self.next_number()?;
        self.at = next;
        Ok(value)
    }

    /// A count, a length, rows or columns: a number from least to most.
    #[tactic(auto, unfolding(crate::specs::Number::number_in))]
    pub fn within(&mut self, least: usize, most: usize) -> Result<usize, Fault>
        ensures read { told result self.new.at ≡ number_in self.old.bytes.now self.old.at least most }
        ensures in_range { IfOk result (λ value. (least ≤ value) × (value ≤ most)) }
        ensures same { self.new.bytes ≡ self.old.bytes }
        ensures stays { OnErr result (self.new.at ≡ self.old.at) }
    {
        let (value, next) = self.next_number()?;
        if value < least || most < value {
            return Err(Refusal::OutOfRange.at(self.at));
        }
        self.at = next;
        Ok(value)
    }

    /// A motif, a colour or a kind: a number below a count, refused as its field is.
    #[tactic(auto, unfolding(crate::specs::Number::number_below))]
    pub fn below(&mut self, count: usize, refusal: Refusal) -> Result<usize, Fault>
        ensures read { told result self.new.at ≡ number_below self.old.bytes.now self.old.at count (number_of refusal) }
        ensures below { IfOk result (λ value. value < count) }
        ensures same { self.new.bytes ≡ self.old.bytes }
        ensures stays { OnErr result (self.new.at ≡ self.old.at) }
    {
        let (value, next) = self.next_number()?;
        if count <= value {
            return Err(refusal.at(self.at));
        }
        self.at = next;
        Ok(value)
    }

    /// The name of so many bytes that stands next.
    pub fn name(&mut self, len: usize) -> Result<Span, Fault>
        ensures read { told_name result ≡ named_at self.old.bytes.now self.old.at len (name_of (drop self.old.at self.old.bytes.now) len) }
        ensures after { IfOk result (λ name. self.new.at ≡ name.start + name.len) }
        ensures same { self.new.bytes ≡ self.old.bytes }
        ensures stays { OnErr result (self.new.at ≡ self.old.at) }
    {
        let start = self.at;
        let name = front(tail(self.bytes, start), len);
        if let Some(k) = first_unshown(name, len) {
            return Err(Refusal::BadByte.at(start + k));
        }
        if name.len() < len {
            return Err(ends_early(self.bytes));
        }
        self.at = start + len;
        Ok(Span { start, len })
    }

    // A length from 1 to the longest, then a name of that many bytes.
    #[tactic(auto, unfolding(crate::specs::Colours::colour_at))]
    pub(crate) fn colour(&mut self) -> Result<Span, Fault>
        ensures read { told_name result ≡ colour_at self.old.bytes.now self.old.at }
        ensures after { IfOk result (λ name. self.new.at ≡ name.start + name.len) }
        ensures same { self.new.bytes ≡ self.old.bytes }
    {
        let len = self.within(1, LONGEST_NAME)?;
        self.name(len)
    }

    /// Nothing may follow.
    pub fn end(&self) -> Result<(), Fault>
        ensures { told_end result ≡ ending (λ f. f) self.now.bytes.now self.now.at (fault 0 0) }
    {
        if self.at < self.bytes.len() {
            return Err(Refusal::MoreFollows.at(self.at));
        }
        Ok(())
    }
}
