// Equal rules: each rule is a number, and equal rules have equal numbers, so that several rules are compared at once. By a derived `==` reading the longest
// book takes 276,000 instructions in place of 132,000.
ghost use Rattle.std.specs.Prelude.{◌≡◌, ◌+◌, ◌*◌, ◌^◌};
ghost use Rattle.books.specs.RuleNumbers.{rule_number, numbers_of, among};

use crate::rule::{Body, MOST_RULES, Rule};

// A byte for each part of a rule.
fn number_parts(head: u8, kind: u8, first: u8, second: u8) -> u32
    ensures { result ≡ head + 2 ^ 8 * kind + 2 ^ 16 * first + 2 ^ 24 * second }
{
    u32::from_le_bytes([head, kind, first, second])
}

/// A rule in one number: rules are equal exactly when their numbers are.
pub fn rule_number(rule: Rule) -> u32
    ensures { result ≡ rule_number rule }
{
    match rule.body {
        Body::Colour(colour) => number_parts(rule.head, 0, colour, 0),
        Body::Across(left, right) => number_parts(rule.head, 1, left, right),
        Body::Down(upper, lower) => number_parts(rule.head, 2, upper, lower),
    }
}

/// The numbers of the first rules, and zeros behind them.
pub fn numbers_of(rules: [Rule; MOST_RULES], count: usize) -> [u32; MOST_RULES]
    ensures { result ≡ numbers_of rules count }
{
    let mut numbers = [0; MOST_RULES];
    for (i, rule) in rules[..count.min(MOST_RULES)].iter().enumerate() {
        numbers[i] = rule_number(*rule);
    }
    numbers
}

/// Whether a number stands among others.
pub fn stands(numbers: &[u32], number: u32) -> bool
    ensures { result ≡ among numbers.now number }
{
    numbers.contains(&number)
}
