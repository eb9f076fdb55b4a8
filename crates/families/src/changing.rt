// Mirrored, flipped and transposed rules.
use crate::asked::Change;
use crate::rules::Rules;
use books::rule::{Body, Rule};

impl Change {
    ghost use Rattle.std.specs.Prelude.{◌≡◌};
    ghost use Rattle.families.specs.inner.Asked.{changed_body};

    fn body(self, body: Body) -> Body
        ensures { result ≡ changed_body self body }
    {
        match (self, body) {
            (_, Body::Colour(colour)) => Body::Colour(colour),
            (Change::Mirrored, Body::Across(left, right)) => Body::Across(right, left),
            (Change::Mirrored, Body::Down(upper, lower)) => Body::Down(upper, lower),
            (Change::Flipped, Body::Across(left, right)) => Body::Across(left, right),
            (Change::Flipped, Body::Down(upper, lower)) => Body::Down(lower, upper),
            (Change::Transposed, Body::Across(left, right)) => Body::Down(left, right),
            (Change::Transposed, Body::Down(upper, lower)) => Body::Across(upper, lower),
        }
    }
}

impl Rules {
    ghost use Rattle.std.specs.Prelude.{◌≡◌, map};
    ghost use Rattle.families.specs.inner.Asked.{changed_rule};
    ghost use Rattle.families.specs.inner.Gathered.{standing};

    // Every rule changed, and nothing else.
    pub(crate) fn changed(&self, change: Change) -> Rules
        ensures { standing result ≡ map (changed_rule change) (standing self.now) }
    {
        let mut changed = Rules::none();
        for rule in self.as_slice() {
            changed.push(Rule {
                body: change.body(rule.body),
                ..*rule
            });
        }
        changed
    }
}
