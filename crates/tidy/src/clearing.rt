// What is left of a family where only marked motifs are kept: the rules that use no others, of equal rules the first, renumbered in their old order.
ghost use Rattle.std.specs.Prelude.{◌≡◌, ◌≤◌};
ghost use Rattle.books.specs.Keeps.{most_motifs};
ghost use Rattle.tidy.specs.Marks.{rank};

use crate::marking;
use crate::untidy::{Sound, Untidy};
use books::equal;
use books::family::Family;
use books::rule::{Body, Rule};

// The number of a motif among the marked ones: how many of them stand before it.
fn rank(marks: u32, motif: u8) -> u8
    requires { motif ≤ most_motifs }
    ensures { result ≡ rank marks motif }
{
    u64::count_ones(u64::from(marks) % (1u64 << motif)) as u8
}

impl Sound {
    ghost use Rattle.tidy.specs.Tidied.{uses, renumbered};
    ghost use Rattle.tidy.specs.inner.Cleared.{is_left};

    // Whether head and motifs are all marked.
    #[tactic(auto, unfolding(crate::specs::Tidied::uses, names::specs::Pick::and_then))]
    fn is_usable(&self, marks: u32) -> bool
        ensures { result ≡ uses marks self.now.rule }
    {
        marking::is_marked(marks, self.rule.head) && self.all_marked(marks)
    }

    // Whether the rule is left: its motifs are all marked, and its number stands not among those of the rules before it. Equal rules are found by their numbers, as in `books::equal`.
    #[tactic(auto, unfolding(crate::specs::inner::Cleared::is_left, names::specs::Pick::and_then))]
    fn is_left(&self, marks: u32, before: &[u32], number: u32) -> bool
        ensures { result ≡ is_left marks self.now.rule before.now number }
    {
        self.is_usable(marks) && !equal::stands(before, number)
    }

    fn renumbered(&self, marks: u32) -> Rule
        ensures { result ≡ renumbered marks self.now.rule }
    {
        Rule {
            head: rank(marks, self.rule.head),
            body: match self.rule.body {
                Body::Colour(colour) => Body::Colour(colour),
                Body::Across(left, right) => Body::Across(rank(marks, left), rank(marks, right)),
                Body::Down(upper, lower) => Body::Down(rank(marks, upper), rank(marks, lower)),
            },
        }
    }
}

impl<'a> Untidy<'a> {
    ghost use Rattle.tidy.specs.inner.Cleared.{cleared};

    // The family that is left; its colours stay.
    pub(crate) fn cleared(&self, marks: u32) -> Family
        ensures { result ≡ cleared marks self.now.family.now }
    {
        let numbers = equal::numbers_of(self.family.rules, self.family.count);
        // With no heap they are left in a copy of the family's own array.
        let mut rules = self.family.rules;
        let mut count = 0;
        for (i, rule) in self.rules().iter().enumerate() {
            let rule = Sound { rule: *rule };
            if rule.is_left(marks, &numbers[..i], numbers[i]) {
                rules[count] = rule.renumbered(marks);
                count += 1;
            }
        }
        Family {
            colours: self.family.colours,
            motifs: usize::from(rank(marks, self.family.motifs as u8)),
            start: usize::from(rank(marks, self.family.start as u8)),
            count,
            rules,
        }
    }
}
