// The search, straight from the definition: a motif derives a piece where a rule with that head does, and a join does where at some cut its first motif
// derives the first part and its second the rest. Nothing is kept of what was asked before. Each part has fewer rows and columns in all, so that the search ends.
// It has its own parts and its own test of a cell: two engines that agree say something of a build only where they share no code (docs/DECISIONS.md).
ghost use Rattle.std.specs.Prelude.{◌≡◌, ◌-◌, ◌*◌, ◌≤◌, ◌<◌, length};
ghost use Rattle.books.specs.Keeps.{most_rules};
ghost use Rattle.books.specs.Search.{any_cut, fits_body};
ghost use Rattle.pieces.specs.Most.{most};
ghost use Rattle.pieces.specs.OnSheet.{on_sheet, covers_on};
ghost use Rattle.pieces.specs.Parts.{reach, first_part, rest_part};
ghost use Rattle.pieces.specs.Pieces.{Inside};
ghost use Rattle.plain.specs.inner.Search.{found};

use books::rule::{Body, Dir, Rule};
use books::size::Size;
use pieces::piece::Piece;

// The rules of a book, and a sheet with the numbers that its cells' colours have in the book.
#[derive(Clone, Copy)]
pub(crate) struct Sheet<'a> {
    pub(crate) rules: &'a [Rule],
    pub(crate) cells: &'a [u8],
    pub(crate) size: Size,
    ghost rules_few: { length rules.now ≤ most_rules },
    ghost rows_few: { size.rows ≤ most },
    ghost cols_few: { size.cols ≤ most },
    ghost cells_all: { size.rows * size.cols ≤ length cells.now },
}

// A piece of a sheet.
#[derive(Clone, Copy)]
pub(crate) struct Placed<'a> {
    pub(crate) sheet: &'a Sheet<'a>,
    pub(crate) piece: Piece,
    ghost inside: { Inside sheet.now.size.rows sheet.now.size.cols piece },
}

impl<'a> Placed<'a> {
    // How far it reaches in a direction: its columns, or its rows.
    fn reach(self, d: Dir) -> usize
        ensures { result ≡ reach d self.entry.piece }
    {
        match d {
            Dir::Across => self.piece.width,
            Dir::Down => self.piece.height,
        }
    }

    // Its first k columns, or rows, ...
    fn first_part(self, d: Dir, k: usize) -> Self
        requires from_one { 1 ≤ k }
        requires below { k < reach d self.piece }
        ensures sheet { result.sheet ≡ self.entry.sheet }
        ensures piece { result.piece ≡ first_part d k self.entry.piece }
    {
        let piece = self.piece;
        Placed {
            sheet: self.sheet,
            piece: match d {
                Dir::Across => Piece { width: k, ..piece },
                Dir::Down => Piece { height: k, ..piece },
            },
        }
    }

    // ... and the rest of them.
    fn rest_part(self, d: Dir, k: usize) -> Self
        requires from_one { 1 ≤ k }
        requires below { k < reach d self.piece }
        ensures sheet { result.sheet ≡ self.entry.sheet }
        ensures piece { result.piece ≡ rest_part d k self.entry.piece }
    {
        let piece = self.piece;
        Placed {
            sheet: self.sheet,
            piece: match d {
                Dir::Across => Piece {
                    width: piece.width - k,
                    left: piece.left + k,
                    ..piece
                },
                Dir::Down => Piece {
                    height: piece.height - k,
                    top: piece.top + k,
                    ..piece
                },
            },
        }
    }

    // Whether it is one cell of a colour.
    #[tactic(auto, using(crate::proofs::Lying::cell_is), unfolding(pieces::specs::Choice::covers, names::specs::Pick::and_then))]
    fn is_cell(self, colour: u8) -> bool
        ensures { result ≡ covers_on self.entry.sheet.now.size self.entry.sheet.now.cells.now self.entry.piece colour }
    {
        let piece = self.piece;
        let cols = self.sheet.size.cols;
        piece.height == 1
            && piece.width == 1
            && self.sheet.cells[piece.top * cols + piece.left] == colour
    }

    // Whether a motif derives it: every rule with that head is tried, until one fits.
    #[cycle(search)]
    pub(crate) fn derives(self, motif: u8) -> bool
        ensures { result ≡ found self.entry.sheet.now.rules.now self.entry.sheet.now.size self.entry.sheet.now.cells.now motif self.entry.piece }
    {
        for rule in self.sheet.rules {
            if rule.head == motif && self.fits(rule.body) {
                return true;
            }
        }
        false
    }

    // Whether a rule's body fits it: a colour where it is one cell of it, a join where it comes apart into what its motifs derive.
    #[cycle(search)]
    #[tactic(auto, unfolding(books::specs::Search::fits_body))]
    fn fits(self, body: Body) -> bool
        ensures { result ≡ fits_body (on_sheet self.entry.sheet.now.size self.entry.sheet.now.cells.now) (found self.entry.sheet.now.rules.now self.entry.sheet.now.size self.entry.sheet.now.cells.now) self.entry.piece body }
    {
        match body {
            Body::Colour(colour) => self.is_cell(colour),
            Body::Across(left, right) => self.comes_apart(Dir::Across, left, right),
            Body::Down(upper, lower) => self.comes_apart(Dir::Down, upper, lower),
        }
    }

    // Whether at some cut two motifs derive the two parts. Every cut is tried, until one does; the rest is asked only where the first part is derived.
    #[cycle(search)]
    fn comes_apart(self, d: Dir, first: u8, second: u8) -> bool
        ensures { result ≡ any_cut (on_sheet self.entry.sheet.now.size self.entry.sheet.now.cells.now) (found self.entry.sheet.now.rules.now self.entry.sheet.now.size self.entry.sheet.now.cells.now)
            d first second self.entry.piece (reach d self.entry.piece - 1) }
    {
        for k in (1..self.reach(d)).rev() {
            if self.first_part(d, k).derives(first) && self.rest_part(d, k).derives(second) {
                return true;
            }
        }
        false
    }
}
