// A family as it is read from a book.
ghost use Rattle.std.specs.Prelude.{◌≡◌, take};

use crate::rule::{MOST_RULES, Rule};
use names::colours::Colours;

/// The colours are places in the lent book; the first `count` rules stand, and the others are fixed. There is no heap, and `no_family` and `family_of` name these fields.
#[derive(Clone, Copy)]
pub struct Family {
    pub colours: Colours,
    pub motifs: usize,
    pub start: usize,
    pub count: usize,
    pub rules: [Rule; MOST_RULES],
}

impl Family {
    /// The rules that stand.
    pub fn rules(&self) -> &[Rule]
        ensures { result.now ≡ take self.now.count self.now.rules }
    {
        &self.rules[..self.count.min(MOST_RULES)]
    }
}
