// What a host looks up in a book beside the names of its colours: the counts and a rule. And the version, which it asks of no book.
ghost use Rattle.std.specs.Prelude.{◌≡◌};
ghost use Rattle.books.specs.RuleNumbers.{packed_rule};
ghost use Rattle.lookups.specs.Book.{counts_shown, rule_of, rule_shown, told_rule, version};

use books::book::read_book;
use books::equal::rule_number;
use books::rule::Rule;

/// The rule with a number, if the book has one. A refused book has no rules.
pub fn rule(book: &[u8], number: usize) -> Option<Rule>
    ensures { told_rule result ≡ rule_of book.now number }
{
    read_book(book).ok()?.rules().get(number).copied()
}

/// A rule in one number, with 1 above its parts, so that no rule is 0.
pub fn pack_rule(rule: Rule) -> u64
    ensures { result ≡ packed_rule rule }
{
    rule_number(rule) as u64 + 4294967296
}

/// How many colours, motifs and rules a book has, and its start, for the C host: in one number with 1 above them, or 0.
pub fn dv_counts(book: &[u8]) -> u64
    ensures { result ≡ counts_shown book.now }
{
    let Ok(f) = read_book(book) else {
        return 0;
    };
    f.colours.count as u64
        + 256 * f.motifs as u64
        + 65536 * f.start as u64
        + 16777216 * f.count as u64
        + 4294967296
}

/// The rule with a number, for the C host: its parts in one number, or 0.
pub fn dv_rule(book: &[u8], number: usize) -> u64
    ensures { result ≡ rule_shown book.now number }
{
    rule(book, number).map_or(0, pack_rule)
}

/// The version of rules and calls, as `DV_VERSION` of the header says: a host sees by it that header and archive belong together.
pub fn dv_version() -> u64
    ensures { result ≡ version }
{
    15
}
