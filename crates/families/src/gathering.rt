// Gathering the rules of a new book from those of one or two others.
ghost use Rattle.std.specs.Prelude.{◌≡◌};
ghost use Rattle.books.specs.Picture.{joins};
ghost use Rattle.families.specs.inner.Gathered.{raised_by, RaiseFits};

use crate::asked::Pairing;
use crate::rules::Rules;
use books::equal;
use books::rule::{Body, Dir, Rule};
use names::colours::MOST_COLOURS;

// The rule that joins two motifs.
pub(crate) fn join_rule(way: Dir, head: u8, first: u8, second: u8) -> Rule
    ensures { result ≡ record { head = head; body = joins way first second } }
{
    Rule {
        head,
        body: match way {
            Dir::Across => Body::Across(first, second),
            Dir::Down => Body::Down(first, second),
        },
    }
}

// A rule of a second book as it stands after a first: its motifs raised, its colour under its number in the merged list.
#[tactic(auto, unfolding(crate::specs::inner::Gathered::raised_by))]
fn raised_rule(rule: Rule, by: u8, numbers: &[u8; MOST_COLOURS]) -> Rule
    requires { RaiseFits by rule }
    ensures { result ≡ raised_by by numbers.now rule }
{
    Rule {
        head: by + rule.head,
        body: match rule.body {
            Body::Colour(colour) => Body::Colour(numbers[colour as usize]),
            Body::Across(left, right) => Body::Across(by + left, by + right),
            Body::Down(upper, lower) => Body::Down(by + upper, by + lower),
        },
    }
}

impl Rules {
    ghost use Rattle.std.specs.Prelude.{map};
    ghost use Rattle.families.specs.Combine.{copies};
    ghost use Rattle.families.specs.inner.Gathered.{standing, missing, LeaveFits, RaiseAllFits};

    // Copies of the rules with one head, under a new head.
    pub(crate) fn copies(&self, head: u8, new: u8) -> Rules
        ensures { standing result ≡ copies new head (standing self.now) }
    {
        let mut copied = Rules::none();
        for rule in self.as_slice() {
            if rule.head == head {
                copied.push(Rule { head: new, ..*rule });
            }
        }
        copied
    }

    // The rules that do not stand among others, by their numbers, as `books` finds equal rules (`books::equal`).
    pub(crate) fn missing_from(&self, others: &Rules) -> Rules
        requires { LeaveFits (standing others.now) (standing self.now) }
        ensures { standing result ≡ missing (standing others.now) (standing self.now) }
    {
        let numbers = equal::numbers_of(others.rules, others.count);
        let mut left = Rules::none();
        for rule in self.as_slice() {
            if !equal::stands(&numbers[..others.count], equal::rule_number(*rule)) {
                left.push(*rule);
            }
        }
        left
    }

    // All rules as they stand after those of a first book.
    pub(crate) fn raised(&self, by: u8, numbers: &[u8; MOST_COLOURS]) -> Rules
        requires { RaiseAllFits by (standing self.now) }
        ensures { standing result ≡ map (raised_by by numbers.now) (standing self.now) }
    {
        let mut raised = Rules::none();
        for rule in self.as_slice() {
            raised.push(raised_rule(*rule, by, numbers));
        }
        raised
    }
}

impl Pairing {
    ghost use Rattle.families.specs.inner.Gathered.{standing, LeaveFits};
    ghost use Rattle.families.specs.inner.Combined.{first_adds, second_adds, AddsFit};

    // What a pairing adds from the first family: copies of its start's rules under the new start, or nothing.
    pub(crate) fn first_adds(self, own: &Rules, start: u8, new: u8) -> Rules
        ensures { standing result ≡ first_adds self start new (standing own.now) }
    {
        match self {
            Pairing::EitherOf => own.copies(start, new),
            Pairing::Joined(_) => Rules::none(),
        }
    }

    // ... and from the second, whose rules are raised: copies of its start's rules that are not among those of the first, or the rule that joins both starts.
    pub(crate) fn second_adds(
        self,
        start: u8,
        copied: &Rules,
        raised: &Rules,
        other: u8,
        new: u8,
    ) -> Rules
        requires { AddsFit (standing copied.now) (standing raised.now) }
        ensures { standing result ≡ second_adds self start (standing copied.now) (standing raised.now) other new }
    {
        match self {
            Pairing::EitherOf => raised.copies(other, new).missing_from(copied),
            Pairing::Joined(way) => {
                let mut joined = Rules::none();
                joined.push(join_rule(way, new, start, other));
                joined
            }
        }
    }
}
