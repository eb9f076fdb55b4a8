// The rules of a new book, as they are gathered.
ghost use Rattle.std.specs.Prelude.{◌≡◌, ◌≤◌, length};
ghost use Rattle.books.specs.Keeps.{most_rules};

use books::rule::{Body, MOST_RULES, Rule};

// The first `count` rules stand.
#[derive(Clone, Copy)]
pub(crate) struct Rules {
    pub(crate) rules: [Rule; MOST_RULES],
    pub(crate) count: usize,
    ghost few: { count ≤ most_rules },
    ghost places: { length rules ≡ most_rules },
}

// What stands on the places behind the rules.
const NO_RULE: Rule = Rule {
    head: 0,
    body: Body::Colour(0),
};

impl Rules {
    ghost use Rattle.std.specs.Prelude.{◌≡◌, ◌<◌, ◌+◌, ◌++◌, ◌∷◌, [], length};
    ghost use Rattle.families.specs.inner.Gathered.{standing};

    pub(crate) fn none() -> Self
        ensures is { standing result ≡ [] }
        ensures so_many { result.count ≡ 0 }
    {
        Rules {
            rules: [NO_RULE; MOST_RULES],
            count: 0,
        }
    }

    pub(crate) fn as_slice(&self) -> &[Rule]
        ensures is { result.now ≡ standing self.now }
        ensures so_many { length result.now ≡ self.now.count }
    {
        &self.rules[..self.count]
    }

    // One rule more.
    pub(crate) fn push(&mut self, rule: Rule)
        requires { self.old.count < most_rules }
        ensures is { standing self.new ≡ standing self.old ++ rule ∷ [] }
        ensures so_many { self.new.count ≡ self.old.count + 1 }
    {
        self.rules[self.count] = rule;
        self.count += 1;
    }

    // All rules of another list after these.
    pub(crate) fn extend(&mut self, more: &Rules)
        requires { self.old.count + more.now.count ≤ most_rules }
        ensures is { standing self.new ≡ standing self.old ++ standing more.now }
        ensures so_many { self.new.count ≡ self.old.count + more.now.count }
    {
        let count = self.count + more.count;
        self.rules[self.count..count].copy_from_slice(more.as_slice());
        self.count = count;
    }
}
