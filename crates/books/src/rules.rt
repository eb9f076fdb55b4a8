// The rules of a book, read left to right: a head, then a kind, and what it carries.
ghost use Rattle.std.specs.Prelude.{◌≡◌, ◌≤◌};
ghost use Rattle.books.specs.Keeps.{most_rules};
ghost use Rattle.books.specs.Rules.{body_at, rule_at, no_rules, number_repeats, rules_at};
ghost use Rattle.books.specs.Told.{strict, told_body, told_rule, told_rules};

use crate::counts::Counts;
use crate::equal;
use crate::listed::read_listed;
use crate::rule::{Body, MOST_RULES, Rule};
use names::fault::{Fault, Refusal};
use names::reader::Reader;

impl Body {
    // A kind, and what it carries.
    #[tactic(auto, unfolding(crate::specs::Rules::body_at, crate::specs::Rules::colour_number_at, crate::specs::Rules::join_at))]
    fn read(reader: &mut Reader<'_>, counts: Counts) -> Result<Self, Fault>
        ensures read { told_body result reader.new.at ≡ body_at reader.old.bytes.now reader.old.at counts.motifs counts.colours }
        ensures same { reader.new.bytes ≡ reader.old.bytes }
    {
        Ok(match reader.below(3, Refusal::UnknownKind)? {
            0 => Body::Colour(read_listed(reader, counts.colours)?),
            1 => Body::Across(
                read_listed(reader, counts.motifs)?,
                read_listed(reader, counts.motifs)?,
            ),
            _ => Body::Down(
                read_listed(reader, counts.motifs)?,
                read_listed(reader, counts.motifs)?,
            ),
        })
    }
}

impl Rule {
    // A head, and its body.
    #[tactic(auto, unfolding(crate::specs::Rules::rule_at))]
    fn read(reader: &mut Reader<'_>, counts: Counts) -> Result<Self, Fault>
        ensures read { told_rule result reader.new.at ≡ rule_at reader.old.bytes.now reader.old.at counts.motifs counts.colours }
        ensures same { reader.new.bytes ≡ reader.old.bytes }
    {
        Ok(Rule {
            head: read_listed(reader, counts.motifs)?,
            body: Body::read(reader, counts)?,
        })
    }
}

// What is done with a rule that equals an earlier one: it is taken only in a book that is yet to be tidied.
#[derive(Clone, Copy)]
pub(crate) enum Copies {
    Refused,
    Taken,
}

impl Copies {
    // Whether a rule is refused that has this number after rules with those.
    #[tactic(auto, unfolding(crate::specs::Rules::number_repeats, names::specs::Pick::and_then))]
    fn refuse(self, before: &[u32], number: u32) -> bool
        ensures { result ≡ number_repeats (strict self) before.now number }
    {
        match self {
            Copies::Refused => equal::stands(before, number),
            Copies::Taken => false,
        }
    }
}

// The rules of a family that has none.
pub(crate) fn no_rules() -> [Rule; MOST_RULES]
    ensures { result ≡ no_rules }
{
    [Rule {
        head: 0,
        body: Body::Colour(0),
    }; MOST_RULES]
}

// So many rules. Where copies are refused, a rule that repeats an earlier one is, once it is read in full.
pub(crate) fn read_rules(
    reader: &mut Reader<'_>,
    counts: Counts,
    count: usize,
    copies: Copies,
) -> Result<[Rule; MOST_RULES], Fault>
    requires { count ≤ most_rules }
    ensures read { told_rules result reader.new.at ≡ rules_at (strict copies) reader.old.bytes.now reader.old.at counts.motifs counts.colours count }
    ensures same { reader.new.bytes ≡ reader.old.bytes }
{
    let mut rules = no_rules();
    let mut numbers = [0; MOST_RULES];
    // By index, since the numbers before a rule are looked at while it is put beside them.
    for i in 0..count {
        let start = reader.at;
        let rule = Rule::read(reader, counts)?;
        let number = equal::rule_number(rule);
        if copies.refuse(&numbers[..i], number) {
            return Err(Refusal::RuleAgain.at(start));
        }
        numbers[i] = number;
        rules[i] = rule;
    }
    Ok(rules)
}
