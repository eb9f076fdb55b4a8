// Which motifs of a family are kept: motifs are marked rule by rule, a bit each, in as many passes over the rules as there are motifs.
ghost use Rattle.std.specs.Prelude.{◌≡◌, ◌<◌};
ghost use Rattle.names.specs.Bits.{is_set};
ghost use Rattle.books.specs.Keeps.{most_motifs};
ghost use Rattle.tidy.specs.Marks.{adding};
ghost use Rattle.tidy.specs.Marking.{pass, passes};
ghost use Rattle.tidy.specs.inner.Kept.{AllFit};
ghost use Rattle.tidy.specs.inner.Steps.{Computes};

use crate::untidy::{Sound, Untidy};
use books::rule::{Body, Rule};

// Whether a motif is marked. It is below 32, so that `names::word::is_set` need not test it: with that test a tidying takes a tenth longer.
#[tactic(auto, unfolding(names::specs::Bits::is_set, names::specs::Bits::bit))]
pub(crate) fn is_marked(marks: u32, motif: u8) -> bool
    requires { motif < most_motifs }
    ensures { result ≡ is_set marks motif }
{
    (marks >> motif) % 2 == 1
}

// One motif more.
fn add(marks: u32, motif: u8) -> u32
    requires { motif < most_motifs }
    ensures { result ≡ adding marks motif }
{
    marks | 1u32 << motif
}

impl Sound {
    ghost use Rattle.tidy.specs.Marking.{all_marked, adding_body, mark_head, mark_body};

    // Whether all motifs of the body are marked: a colour has none.
    #[tactic(auto, unfolding(crate::specs::Marking::all_marked, names::specs::Pick::and_then))]
    pub(crate) fn all_marked(&self, marks: u32) -> bool
        ensures { result ≡ all_marked marks self.now.rule.body }
    {
        match self.rule.body {
            Body::Colour(_) => true,
            Body::Across(first, second) | Body::Down(first, second) => {
                is_marked(marks, first) && is_marked(marks, second)
            }
        }
    }

    // The motifs of the body more.
    #[tactic(auto, unfolding(crate::specs::Marking::adding_body))]
    fn add_body(&self, marks: u32) -> u32
        ensures { result ≡ adding_body marks self.now.rule.body }
    {
        match self.rule.body {
            Body::Colour(_) => marks,
            Body::Across(first, second) | Body::Down(first, second) => add(
                add(marks, first),
                second,
            ),
        }
    }

    // The head more, where all motifs of the body are marked.
    #[tactic(auto, unfolding(crate::specs::Marking::mark_head))]
    fn mark_head(&self, marks: u32) -> u32
        ensures { result ≡ mark_head marks self.now.rule }
    {
        if self.all_marked(marks) {
            add(marks, self.rule.head)
        } else {
            marks
        }
    }

    // The motifs of the body more, where the head is marked and all of them can be rewritten.
    #[tactic(auto, unfolding(crate::specs::Marking::mark_body))]
    fn mark_body(&self, can: u32, marks: u32) -> u32
        ensures { result ≡ mark_body can marks self.now.rule }
    {
        if is_marked(marks, self.rule.head) && self.all_marked(can) {
            self.add_body(marks)
        } else {
            marks
        }
    }
}

// One pass over the rules, in which each marks by a step. Whatever function of marks and rule the step computes, the pass computes its pass.
#[tactic(auto, using(crate::proofs::Turns::pass_ends, std::proofs::lemmas::Grind::common_steps))]
fn pass<F: Fn(u32, Sound) -> u32>(step: &F, rules: &[Rule], marks: u32) -> u32
    requires callable { F.IsAlwaysCallable step.now }
    requires fit { AllFit rules.now }
    ensures { (f : _) → Computes (F.post step.now) f → result ≡ pass f rules.now marks }
{
    let mut now = marks;
    for rule in rules {
        now = step(now, Sound { rule: *rule });
    }
    now
}

// So many passes. After one that marks nothing more the others would mark nothing either.
#[tactic(auto, using(crate::proofs::Passes::passes_same, crate::proofs::Turns::passes_turn, crate::proofs::Turns::passes_end, std::proofs::lemmas::Grind::common_steps))]
fn passes<F: Fn(u32, Sound) -> u32>(step: F, rules: &[Rule], turns: usize, marks: u32) -> u32
    requires callable { F.IsAlwaysCallable step }
    requires fit { AllFit rules.now }
    ensures { (f : _) → Computes (F.post step) f → result ≡ passes f rules.now turns marks }
{
    let mut now = marks;
    for _ in 0..turns {
        let next = pass(&step, rules, now);
        if next == now {
            return now;
        }
        now = next;
    }
    now
}

impl<'a> Untidy<'a> {
    ghost use Rattle.tidy.specs.inner.Steps.{rewritten_in, reached_in};

    // The motifs that can be rewritten to colours with sizes forgotten.
    pub(crate) fn rewritten(&self) -> u32
        ensures { result ≡ rewritten_in self.now.family.now }
    {
        passes(
            |marks, rule| rule.mark_head(marks),
            self.rules(),
            self.family.motifs,
            0,
        )
    }

    // The motifs that are reached from the start by rules whose motifs all can be rewritten.
    pub(crate) fn reached(&self, can: u32) -> u32
        ensures { result ≡ reached_in self.now.family.now can }
    {
        passes(
            |marks, rule| rule.mark_body(can, marks),
            self.rules(),
            self.family.motifs,
            add(0, self.family.start as u8),
        )
    }
}
