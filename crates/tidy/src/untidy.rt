// A family as it is read, with what reading tells of it: its motifs are each a bit of a mark.
ghost use Rattle.std.proofs.Props.{props};
ghost use Rattle.names.specs.Spelling.{most_colours};
ghost use Rattle.books.specs.Keeps.{most_motifs, RuleFits};
ghost use Rattle.tidy.specs.inner.Kept.{RulesKept, BodyFits-prop};

use books::family::Family;
use books::rule::Rule;

// A family that may have copies of equal rules.
#[derive(Clone, Copy)]
pub(crate) struct Untidy<'a> {
    pub(crate) family: &'a Family,
    ghost kept: { RulesKept family.now } by { Prim.hlevel (props, BodyFits-prop) },
}

impl<'a> Untidy<'a> {
    ghost use Rattle.std.specs.Prelude.{◌≡◌, ◌≤◌, length};
    ghost use Rattle.books.specs.Keeps.{most_rules};
    ghost use Rattle.tidy.specs.inner.Kept.{AllFit, rules_standing};

    // The rules that stand.
    pub(crate) fn rules(&self) -> &'a [Rule]
        ensures are { result.now ≡ rules_standing self.now.family.now }
        ensures few { length result.now ≤ most_rules }
        ensures fit { AllFit result.now }
    {
        self.family.rules()
    }
}

// One of its rules.
#[derive(Clone, Copy)]
pub(crate) struct Sound {
    pub(crate) rule: Rule,
    ghost fits: { RuleFits most_motifs most_colours rule } by { Prim.hlevel (props, BodyFits-prop) },
}
