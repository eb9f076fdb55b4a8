// What is taken at a piece and its motif: the lowest-numbered rule that fits, and for a join the smallest cut that works.
ghost use Rattle.std.specs.Prelude.{◌≡◌, ◌≤◌, length};
ghost use Rattle.books.specs.Keeps.{most_rules};
ghost use Rattle.pieces.specs.inner.Seen.{Celled, On};

use crate::cut::Table;
use crate::part::{Part, parts_of, reach};
use crate::piece::{Piece, times};
use books::rule::{Body, Dir, Rule};
use books::size::Size;

// A colour rule, by its number; or a join, by its number, direction, cut and the motifs of its two parts.
#[derive(Clone, Copy)]
pub(crate) enum Choice {
    Leaf(usize),
    Join {
        rule: usize,
        direction: Dir,
        cut: usize,
        first: u8,
        second: u8,
    },
}

// The colours of the cells of a sheet, by their numbers in the book, row by row.
#[derive(Clone, Copy)]
pub(crate) struct Cells<'a> {
    pub(crate) size: Size,
    pub(crate) colours: &'a [u8],
    ghost celled: { Celled size colours.now },
}

impl<'a> Cells<'a> {
    ghost use Rattle.pieces.specs.Choice.{covers};
    ghost use Rattle.pieces.specs.inner.Seen.{has_colour};

    // Whether a piece is one cell of a colour.
    #[tactic(auto, unfolding(crate::specs::Choice::covers, crate::specs::inner::Seen::has_colour, names::specs::Pick::and_then))]
    pub(crate) fn covers(&self, piece: Piece, colour: u8) -> bool
        requires { On self.now.size piece }
        ensures { result ≡ covers (has_colour self.now.size self.now.colours.now) piece colour }
    {
        piece.height == 1
            && piece.width == 1
            && self.colours[times(piece.top, self.size.cols) + piece.left] == colour
    }
}

// The rules of a book, and a sheet with its table: what a tree is written by.
#[derive(Clone, Copy)]
pub(crate) struct Chooser<'a> {
    pub(crate) rules: &'a [Rule],
    pub(crate) table: Table<'a>,
    pub(crate) cells: Cells<'a>,
    ghost few: { length rules.now ≤ most_rules },
    ghost one_size: { cells.size ≡ table.size },
}

impl<'a> Chooser<'a> {
    ghost use Rattle.std.specs.Option.{option_map};
    ghost use Rattle.pieces.specs.declared.choice.Choice.TheVariants.{Join};
    ghost use Rattle.std.specs.Prelude.{◌<◌};
    ghost use Rattle.pieces.specs.Choice.{choose, works};
    ghost use Rattle.pieces.specs.Suiting.{SomeFits};
    ghost use Rattle.pieces.specs.Parts.{reach};
    ghost use Rattle.pieces.specs.inner.Tried.{smallest, tried, FirstRule};
    ghost use Rattle.pieces.specs.inner.Seen.{has_bit};
    ghost use Rattle.pieces.specs.inner.Known.{view_of};

    pub(crate) fn new(rules: &'a [Rule], table: Table<'a>, cells: Cells<'a>) -> Self
        requires few { length rules.now ≤ most_rules }
        requires one_size { cells.size ≡ table.size }
        ensures rules { result.rules.now ≡ rules.now }
        ensures table { result.table ≡ table.entry }
        ensures cells { result.cells ≡ cells.entry }
    {
        Chooser {
            rules,
            table,
            cells,
        }
    }

    // Whether both parts of a cut have their bits.
    #[tactic(auto, unfolding(crate::specs::Choice::works), using(crate::proofs::PartsOfPieces::parts_on, crate::proofs::Cutting::cut_in))]
    #[inline(always)]
    fn works(&self, piece: Piece, d: Dir, l: u8, r: u8, k: usize) -> bool
        requires on { On self.now.table.size piece }
        requires from_one { 1 ≤ k }
        requires inside { k < reach d piece }
        ensures { result ≡ works (has_bit self.now.table.size self.now.table.entries.now) d l r piece k }
    {
        self.table.both_have(parts_of(piece, d, k, l, r))
    }

    // The smallest cut of a piece that works for a join's motifs.
    #[inline(always)]
    fn smallest_cut(&self, piece: Piece, d: Dir, l: u8, r: u8) -> Option<usize>
        requires { On self.now.table.size piece }
        ensures { result ≡ smallest (has_bit self.now.table.size self.now.table.entries.now) d l r piece }
    {
        let reach = reach(piece, d);
        (1..reach).find(|k| self.works(piece, d, l, r, *k))
    }

    #[inline(always)]
    fn try_join(
        &self,
        piece: Piece,
        rule: usize,
        direction: Dir,
        first: u8,
        second: u8,
    ) -> Option<Choice>
        requires { On self.now.table.size piece }
        ensures { result ≡ option_map (λ k. Join rule direction k first second)
            (smallest (has_bit self.now.table.size self.now.table.entries.now) direction first second piece) }
    {
        let cut = self.smallest_cut(piece, direction, first, second)?;
        Some(Choice::Join {
            rule,
            direction,
            cut,
            first,
            second,
        })
    }

    // What a rule, by its number, gives at a piece and its motif: nothing where its head is another; a colour where the piece is one cell of it, and a join
    // where a cut works, with the smallest.
    #[tactic(auto, unfolding(crate::specs::inner::Tried::tried, crate::specs::inner::Tried::smallest, crate::specs::Choice::takes, crate::specs::Choice::fits, crate::specs::Choice::chosen, names::specs::Pick::and_then))]
    #[inline(always)]
    fn try_rule(&self, x: Part, i: usize, rule: &Rule) -> Option<Choice>
        requires { On self.now.table.size x.piece }
        ensures { result ≡ tried (view_of self.now) x.motif x.piece i rule.now }
    {
        if rule.head != x.motif {
            return None;
        }
        match rule.body {
            Body::Colour(colour) => self
                .cells
                .covers(x.piece, colour)
                .then_some(Choice::Leaf(i)),
            Body::Across(left, right) => self.try_join(x.piece, i, Dir::Across, left, right),
            Body::Down(upper, lower) => self.try_join(x.piece, i, Dir::Down, upper, lower),
        }
    }

    // What the first rule that gives something gives.
    #[inline(always)]
    fn first_choice(&self, x: Part) -> Option<Choice>
        requires { On self.now.table.size x.piece }
        ensures { FirstRule (tried (view_of self.now) x.motif x.piece) self.now.rules.now result }
    {
        self.rules
            .iter()
            .enumerate()
            .find_map(|(i, rule)| self.try_rule(x, i, rule))
    }

    // What is taken at a piece where a rule fits: of the rules that have the motif for their head the first that fits.
    pub(crate) fn choose(&self, x: Part) -> Choice
        requires on { On self.now.table.size x.piece }
        requires fits { SomeFits (view_of self.now) self.now.rules.now x.motif x.piece }
        ensures { result ≡ choose (view_of self.now) self.now.rules.now x.motif x.piece }
    {
        self.first_choice(x).unwrap()
    }
}
