// The rules of a family laid out in rows of four bytes: head and kind, then a colour, or two motifs, as a book spells them. Rows can be lent to a function
// that calls itself; by value the rules would be copied at every call and stand on the stack at every level.
ghost use Rattle.std.specs.Prelude.{◌≡◌};
ghost use Rattle.books.specs.RuleBytes.{lent_rules, BookInto, kind_dir};
ghost use Rattle.books.specs.Equal.{four_of};
ghost use Rattle.books.specs.Told.{told_book_figures};

use crate::book::read_book;
use crate::rule::{Body, Dir, MOST_RULES, Rule};
use names::colours::Colours;
use names::fault::Fault;

/// What is told of a book whose rules went into lent rows: its colours are places in it, and so many rules stand.
#[derive(Clone, Copy)]
pub struct BookFigures {
    pub colours: Colours,
    pub start: u8,
    pub rules: usize,
}

// A rule's four bytes.
fn four(r: Rule) -> [u8; 4]
    ensures { result ≡ four_of r }
{
    match r.body {
        Body::Colour(c) => [r.head, 0, c, 0],
        Body::Across(x, y) => [r.head, 1, x, y],
        Body::Down(x, y) => [r.head, 2, x, y],
    }
}

/// The rows of the first rules, in order, and rows of zeros behind them, whatever rows there were.
#[tactic(auto, unfolding(crate::specs::RuleBytes::lent_rules))]
pub fn lend(rules: [Rule; MOST_RULES], count: usize, rows: &mut [[u8; 4]; MOST_RULES])
    ensures { rows.new ≡ lent_rules rules count }
{
    *rows = [[0; 4]; MOST_RULES];
    for (i, rule) in rules[..count.min(MOST_RULES)].iter().enumerate() {
        rows[i] = four(*rule);
    }
}

/// Reads a book with its rules into lent rows. A refused book leaves rows of zeros.
pub fn read_rules(book: &[u8], rows: &mut [[u8; 4]; MOST_RULES]) -> Result<BookFigures, Fault>
    ensures { BookInto book.now (told_book_figures result) rows.new }
{
    *rows = [[0; 4]; MOST_RULES];
    let family = read_book(book)?;
    lend(family.rules, family.count, rows);
    Ok(BookFigures {
        colours: family.colours,
        start: family.start as u8,
        rules: family.count,
    })
}

/// The direction of a join, by the kind in its row.
#[tactic(auto, unfolding(crate::specs::RuleBytes::kind_dir))]
pub fn direction(kind: u8) -> Dir
    ensures { result ≡ kind_dir kind }
{
    match kind {
        1 => Dir::Across,
        _ => Dir::Down,
    }
}
