// The combinations as drafts. The counts of what is to be made are tested before its rules are put together.
ghost use Rattle.std.specs.Prelude.{◌≡◌};
ghost use Rattle.families.specs.Limits.{counts_within?};
ghost use Rattle.families.specs.inner.Made.{drafted_as};

use crate::asked::{Change, Pairing, Single};
use crate::gathering;
use crate::lent::LentBook;
use crate::rules::Rules;
use books::family::Family;
use books::rule::{Dir, MOST_MOTIFS, MOST_RULES};
use drafts::draft::Draft;
use names::colours;
use names::colours::{Colours, MOST_COLOURS};

// No more colours, motifs and rules than a book may have.
fn counts_within(colours: usize, motifs: usize, rules: usize) -> bool
    ensures { result ≡ counts_within? colours motifs rules }
{
    colours <= MOST_COLOURS && motifs <= MOST_MOTIFS && rules <= MOST_RULES
}

// The draft of a new book with the colours of a first, and more.
fn draft(colours: Colours, more: Colours, motifs: usize, start: usize, rules: &Rules) -> Draft
    ensures { result ≡ drafted_as colours more motifs start rules.now }
{
    Draft {
        family: Family {
            colours,
            motifs,
            start,
            count: rules.count,
            rules: rules.rules,
        },
        more,
    }
}

impl<'a> LentBook<'a> {
    ghost use Rattle.families.specs.inner.Gathered.{standing};
    ghost use Rattle.families.specs.inner.Lent.{rules_of};
    ghost use Rattle.families.specs.inner.Made.{MakesPair, MakesSingle};

    // The family's rules by themselves.
    fn rules(&self) -> Rules
        ensures is { standing result ≡ rules_of self.now.family.now }
        ensures so_many { result.count ≡ self.now.family.now.count }
    {
        Rules {
            rules: self.family.rules,
            count: self.family.count,
        }
    }

    // A pairing has one motif more than both books, and the rules that it adds to theirs: what remains of them is counted. Too much is not drafted.
    pub(crate) fn paired(&self, pairing: Pairing, second: &LentBook<'_>) -> Option<Draft>
        ensures { MakesPair pairing self.now.bytes.now self.now.family.now second.now.bytes.now second.now.family.now result }
    {
        let (f, g) = (self.family, second.family);
        let merged = self.merged(second);
        let by = f.motifs as u8;
        let start = f.motifs + g.motifs;
        let mut rules = self.rules();
        let raised = second.rules().raised(by, &merged.numbers);
        let copied = pairing.first_adds(&rules, f.start as u8, start as u8);
        let added = pairing.second_adds(
            f.start as u8,
            &copied,
            &raised,
            by + g.start as u8,
            start as u8,
        );
        if counts_within(
            f.colours.count + merged.more.count,
            start + 1,
            f.count + g.count + (copied.count + added.count),
        ) {
            rules.extend(&raised);
            rules.extend(&copied);
            rules.extend(&added);
            Some(draft(f.colours, merged.more, start + 1, start, &rules))
        } else {
            None
        }
    }

    // Run or stack: a new start, one rule for each that is copied from the old one, and the rule that joins.
    fn repeated(&self, way: Dir) -> Option<Draft>
        ensures { MakesSingle (Single.Repeated way) self.now.family.now result }
    {
        let f = self.family;
        let start = f.motifs;
        let mut rules = self.rules();
        let copied = rules.copies(f.start as u8, start as u8);
        if counts_within(f.colours.count, f.motifs + 1, f.count + copied.count + 1) {
            rules.extend(&copied);
            rules.push(gathering::join_rule(way, start as u8, f.start as u8, start as u8));
            Some(draft(
                f.colours,
                colours::no_colours(),
                f.motifs + 1,
                start,
                &rules,
            ))
        } else {
            None
        }
    }

    // Mirrored, flipped or transposed: no count changes.
    fn changed(&self, change: Change) -> Draft
        ensures { MakesSingle (Single.Changed change) self.now.family.now (Some result) }
    {
        let f = self.family;
        let rules = self.rules().changed(change);
        draft(f.colours, colours::no_colours(), f.motifs, f.start, &rules)
    }

    pub(crate) fn alone(&self, single: Single) -> Option<Draft>
        ensures { MakesSingle single self.now.family.now result }
    {
        match single {
            Single::Repeated(way) => self.repeated(way),
            Single::Changed(change) => Some(self.changed(change)),
        }
    }
}
