// A family's rules as masks: a motif is worth 2 to the power of its number.
ghost use Rattle.std.specs.Prelude.{◌≡◌, ◌+◌, ◌^◌, ◌≤◌, ◌<◌, length};
ghost use Rattle.books.specs.Keeps.{most_motifs};
ghost use Rattle.pieces.specs.Masks.{heads_from, masked, put_at, put_body, split_of};
ghost use Rattle.pieces.specs.Firing.{firing, fitting, fire_of, painted_of};
ghost use Rattle.pieces.specs.inner.ForTable.{MasksFit};
ghost use Rattle.pieces.specs.inner.Small.{JoinDue, RuleDue, SplitDue};

use books::rule::{Body, Dir, MOST_RULES, Rule};
use names::colours::MOST_COLOURS;
use names::slice::clear;

// The masks stand in one row of numbers: three rows for the joins, their first parts, second parts and heads, in each of which the across joins stand from the
// front on and the down joins from the back; and one mask for each colour that a book can have, with one more for all that it lacks.
const SECONDS_FROM: usize = MOST_RULES;

const HEADS_FROM: usize = 2 * MOST_RULES;

pub const PAINTERS_FROM: usize = 3 * MOST_RULES;

const COLOUR_MASKS: usize = MOST_COLOURS + 1;

pub const ALL_MASKS: usize = PAINTERS_FROM + COLOUR_MASKS;

/// How many joins a family has in each direction.
#[derive(Clone, Copy)]
pub struct Joins {
    pub across: usize,
    pub down: usize,
}

// The heads of the joins that fire, and how many trials it took to find them: one a join at each cut.
#[derive(Clone, Copy)]
pub(crate) struct Joined {
    pub(crate) heads: u32,
    pub(crate) trials: usize,
}

// The mask of one motif.
fn mask(a: u8) -> u32
    requires { a < most_motifs }
    ensures { result ≡ 2 ^ a }
{
    1u32 << (a as u32)
}

// Writes the masks of one join at a place of the three rows.
fn put(masks: &mut [u32], at: usize, head: u8, first: u8, second: u8)
    requires { JoinDue (length masks.old) at head first second }
    ensures { masks.new ≡ put_at masks.old at head first second }
{
    masks[at] = mask(first);
    masks[SECONDS_FROM + at] = mask(second);
    masks[HEADS_FROM + at] = mask(head);
}

// The masks of a rule: a join stands next to those of its direction, and each colour gathers the heads that paint it.
fn put_rule(r: &Rule, masks: &mut [u32], joins: Joins) -> Joins
    requires { RuleDue (length masks.old) joins r.now }
    ensures { masked masks.new result ≡ put_body (masked masks.old joins) r.now.head r.now.body }
{
    match r.body {
        Body::Colour(colour) => {
            masks[PAINTERS_FROM + usize::from(colour)] |= mask(r.head);
            joins
        }
        Body::Across(left, right) => {
            put(masks, joins.across, r.head, left, right);
            Joins {
                across: joins.across + 1,
                ..joins
            }
        }
        Body::Down(upper, lower) => {
            put(masks, MOST_RULES - 1 - joins.down, r.head, upper, lower);
            Joins {
                down: joins.down + 1,
                ..joins
            }
        }
    }
}

// The masks of rules, in order.
pub(crate) fn split(rules: &[Rule], masks: &mut [u32]) -> Joins
    requires { SplitDue rules.now (length masks.old) }
    ensures { masked masks.new result ≡ split_of rules.now masks.old }
{
    // Of the three rows only what is counted is read, so that they need no clearing.
    clear(&mut masks[PAINTERS_FROM..]);
    let mut joins = Joins { across: 0, down: 0 };
    for rule in rules {
        joins = put_rule(rule, masks, joins);
    }
    joins
}

// One join at one cut.
#[tactic(auto, unfolding(crate::specs::Firing::firing))]
fn fired(l: u32, r: u32, first: u32, second: u32, head: u32) -> u32
    ensures { result ≡ firing l r first second head }
{
    if l & first != 0 && r & second != 0 {
        head
    } else {
        0
    }
}

// Whether masks of this number, with so many joins, can be a book's.
#[tactic(auto, unfolding(crate::specs::Firing::fitting))]
pub(crate) fn fits(masks: usize, joins: Joins) -> bool
    ensures { result ≡ fitting masks joins }
{
    masks == ALL_MASKS && joins.across <= MOST_RULES && joins.down <= MOST_RULES
}

// Masks that can be a book's.
#[derive(Clone, Copy)]
pub(crate) struct Masks<'a> {
    pub(crate) masks: &'a [u32],
    pub(crate) joins: Joins,
    ghost fit: { MasksFit (length masks.now) joins },
}

// The joins of one direction, in their three rows.
#[derive(Clone, Copy)]
pub(crate) struct Rows<'a> {
    masks: &'a [u32],
    count: usize,
    ghost long: { heads_from + count ≤ length masks.now },
}

impl<'a> Masks<'a> {
    ghost use Rattle.books.specs.declared.rule.Dir.TheVariants.{Across as across, Down as down};
    ghost use Rattle.pieces.specs.Masks.{joins_of};
    ghost use Rattle.pieces.specs.inner.Along.{window};

    fn across(&self) -> Rows<'a>
        ensures masks { result.masks.now ≡ window self.now.masks.now self.now.joins across }
        ensures count { result.count ≡ self.now.joins.across }
    {
        Rows {
            masks: self.masks,
            count: self.joins.across,
        }
    }

    // The down joins begin as many places before the end of a row as there are.
    fn down(&self) -> Rows<'a>
        ensures masks { result.masks.now ≡ window self.now.masks.now self.now.joins down }
        ensures count { result.count ≡ self.now.joins.down }
    {
        Rows {
            masks: &self.masks[MOST_RULES - self.joins.down..],
            count: self.joins.down,
        }
    }

    #[inline(always)]
    pub(crate) fn rows(&self, d: Dir) -> Rows<'a>
        ensures masks { result.masks.now ≡ window self.now.masks.now self.now.joins d }
        ensures count { result.count ≡ joins_of self.now.joins d }
    {
        match d {
            Dir::Across => self.across(),
            Dir::Down => self.down(),
        }
    }
}

impl<'a> Rows<'a> {
    ghost use Rattle.pieces.specs.inner.Along.{all_fired};
    ghost use Rattle.pieces.specs.inner.Tally.{joined};

    // All of them at one cut, a turn each: no branch on the kind of a rule, so that the loop can run on several joins at a time.
    // By index: by `zip` over the three rows a derivation of 12 by 12 with 4 rules takes a fifth more instructions.
    pub(crate) fn join(&self, l: u32, r: u32) -> Joined
        ensures { result ≡ joined (all_fired self.now.masks.now self.now.count l r) self.now.count }
    {
        let mut found = 0u32;
        let mut trials = 0;
        for i in 0..self.count {
            found |= fired(
                l,
                r,
                self.masks[i],
                self.masks[SECONDS_FROM + i],
                self.masks[HEADS_FROM + i],
            );
            trials += 1;
        }
        Joined {
            heads: found,
            trials,
        }
    }
}

/// The heads of the joins of one direction whose two motifs are among those of l and of r. Masks that can be no book's have none.
pub fn fire(masks: &[u32], joins: Joins, d: Dir, l: u32, r: u32) -> u32
    ensures { result ≡ fire_of masks.now joins d l r }
{
    if fits(masks.len(), joins) {
        let masks = Masks { masks, joins };
        return match d {
            Dir::Across => masks.across().join(l, r).heads,
            Dir::Down => masks.down().join(l, r).heads,
        };
    }
    0
}

/// The heads of all colour rules. Masks that can be no book's have none.
pub fn painted(masks: &[u32]) -> u32
    ensures { result ≡ painted_of masks.now }
{
    if masks.len() != ALL_MASKS {
        return 0;
    }
    let painters = &masks[PAINTERS_FROM..];
    let mut heads = 0u32;
    for mask in painters {
        heads |= *mask;
    }
    heads
}
