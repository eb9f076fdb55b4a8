// A book is spelled by its numbers and names, one after the other.
ghost use Rattle.std.specs.Prelude.{◌≡◌, ◌+◌, ◌-◌, ◌^◌, ◌≤◌, min};
ghost use Rattle.names.specs.Colours.{names_in};
ghost use Rattle.names.specs.Number.{spell_number};
ghost use Rattle.names.specs.Spelling.{most_colours, spell_names, spell_colours};
ghost use Rattle.books.specs.SpellBook.{spell_three, spell_body, spell_rule, spell_rules, spell_book};
ghost use Rattle.drafts.specs.Draft.{both_names, draft_in, DraftFits};
ghost use Rattle.drafts.specs.inner.Wrote.{Wrote, spell_name};

use crate::copying::copy;
use crate::draft::Draft;
use books::rule::{Body, Rule};
use names::colours::Colours;
use names::{name, number};

// The slice that is written to, and the place of the next byte. What does not fit is counted all the same: so a writer of an empty slice measures.
#[derive(Drop)]
pub(crate) struct Writer<'a> {
    pub(crate) out: &'a mut [u8],
    pub(crate) at: usize,
}

// The hints make both passes a part of the call, so that the one that measures writes nothing: without them tidying takes a sixth more instructions.
impl<'a> Writer<'a> {
    // Goes on after so many bytes, to the place that their writer gave. Where they did not fit, that is the place before them, and they are counted.
    #[inline(always)]
    fn go_on(&mut self, next: usize, size: usize)
        ensures slice { self.new.out ≡ self.old.out }
        ensures written { (next ≡ self.old.at → ⊥) → self.new.at ≡ next }
        ensures counted { next ≡ self.old.at → self.new.at ≡ min (self.old.at + size) (2 ^ 64 - 1) }
    {
        self.at = if next == self.at {
            next.saturating_add(size)
        } else {
            next
        };
    }

    #[inline(always)]
    fn number(&mut self, v: usize)
        ensures { Wrote self.old (spell_number v) self.new }
    {
        let next = number::write_number(self.out, self.at, v);
        self.go_on(next, number::spelled_len(v));
    }

    #[inline(always)]
    fn bytes(&mut self, bytes: &[u8])
        ensures { Wrote self.old bytes.now self.new }
    {
        let next = copy(bytes, self.out, self.at);
        self.go_on(next, bytes.len());
    }

    // A name after its length.
    #[inline(always)]
    fn name(&mut self, name: &[u8])
        ensures { Wrote self.old (spell_name name.now) self.new }
    {
        self.number(name.len());
        self.bytes(name);
    }

    #[inline(always)]
    fn names(&mut self, s: &[u8], c: &Colours)
        requires { c.now.count ≤ most_colours }
        ensures { Wrote self.old (spell_names (names_in s.now c.now)) self.new }
    {
        let n = c.count;
        for (start, len) in c.starts[..n].iter().zip(&c.lens[..n]) {
            self.name(name::front(name::tail(s, *start as usize), *len as usize));
        }
    }

    // A kind and two motifs; or the motif count, the start and the rule count.
    #[inline(always)]
    fn three(&mut self, first: usize, second: usize, third: usize)
        ensures { Wrote self.old (spell_three first second third) self.new }
    {
        self.number(first);
        self.number(second);
        self.number(third);
    }

    #[inline(always)]
    fn body(&mut self, body: Body)
        ensures { Wrote self.old (spell_body body) self.new }
    {
        match body {
            Body::Colour(c) => {
                self.number(0);
                self.number(c as usize);
            }
            Body::Across(l, r) => self.three(1, l as usize, r as usize),
            Body::Down(u, v) => self.three(2, u as usize, v as usize),
        }
    }

    #[inline(always)]
    fn rule(&mut self, rule: Rule)
        ensures { Wrote self.old (spell_rule rule) self.new }
    {
        self.number(rule.head as usize);
        self.body(rule.body);
    }

    #[inline(always)]
    fn rules(&mut self, rules: &[Rule])
        ensures { Wrote self.old (spell_rules rules.now) self.new }
    {
        for rule in rules {
            self.rule(*rule);
        }
    }

    // The colours of both lists, in one list after their count.
    #[inline(always)]
    fn colours(&mut self, first: &[u8], own: &Colours, second: &[u8], more: &Colours)
        requires own { own.now.count ≤ most_colours }
        requires more { more.now.count ≤ most_colours }
        ensures { Wrote self.old (spell_colours (both_names first.now own.now second.now more.now)) self.new }
    {
        self.number(own.count + more.count);
        self.names(first, own);
        self.names(second, more);
    }

    #[inline(always)]
    pub(crate) fn book(&mut self, first: &[u8], second: &[u8], d: &Draft)
        requires { DraftFits d.now }
        ensures { Wrote self.old (spell_book (draft_in first.now second.now d.now)) self.new }
    {
        let f = &d.family;
        self.colours(first, &f.colours, second, &d.more);
        self.three(f.motifs, f.start, f.count);
        self.rules(&f.rules[..f.count]);
    }
}
