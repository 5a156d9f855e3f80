//! The bytes of a rules file, read as rules.

ghost use Rattle.std.specs.Prelude.{◌≡◌, ◌≢◌, is_some, IfOk, IfSome};
ghost use Rattle.std.specs.List.{list_all};
ghost use Rattle.reader_answers.specs.Answers.{Gives};
ghost use Rattle.element_table.specs.Elements.{element_of};
ghost use Rattle.golden_rules.specs.Limits.{max_rules};
ghost use Rattle.golden_rules.specs.RuleLines.{has_empty_range, is_known, line_rule, rules_of};
ghost use Rattle.golden_rules.specs.RulesFaults.{is_memory};
ghost use Rattle.golden_rules.specs.RulesReadings.{Answer, RulesReading};
ghost use Rattle.std.specs.Str.Lines.{lines};

use crate::fault::RulesFault;
use crate::lines::{is_skipped, words_of};
use crate::rule::{MAX_RULES, Rule, Triple};
use crate::rules::Rules;
use crate::written::written_rule;
use element_table::{Symbol, Table};
use file_lines::cut_line;
use std::alloc::Global;

/// Reads the bytes of a rules file. LF or CR LF ends a line, and the last line may lack its end. Spaces and tabs part
/// words. Lines without words, and those whose first word begins with `#`, are skipped. Each other line is a rule:
///
/// - `senior`;
/// - `ratio A B lo hi`, two symbols and decimals of at most 3 decimals, at most 1,000;
/// - `group A a x` and so on, 1 to 8 triples of a symbol and two whole numbers of at most 10,000;
/// - `unsaturation lo hi`, whole numbers from -100,000 to 100,000, a minus sign before the digits.
///
/// The fault is the first one in the order of the lines, and in a line the first in the order of [`RulesFault`]. A
/// line's symbols are looked up after the whole line was found well formed.
pub fn read_rules(alloc: Global, table: &Table, bytes: &[u8]) -> Result<Rules, RulesFault>
    ensures rules { Gives is_memory result (rules_of table.now bytes.now) }
    ensures meaning { RulesReading table.now (lines bytes.now) (rules_of table.now bytes.now) }
    ensures only { (answer : Answer) → RulesReading table.now (lines bytes.now) answer
        → answer ≡ rules_of table.now bytes.now }
{
    rules_of(alloc, table, bytes)
}

/// The rules of the lines as they are computed.
fn rules_of(alloc: Global, table: &Table, bytes: &[u8]) -> Result<Rules, RulesFault>
    ensures { Gives is_memory result (rules_of table.now bytes.now) }
{
    let mut rules = Vec::new(alloc);
    let mut left = bytes;
    let mut number = 0;
    while !left.is_empty() {
        let (line, rest) = cut_line(left);
        number += 1;
        if let Some(rule) = line_rule(alloc, table, number, rules.len(), line)? {
            rules.push(rule)?;
        }
        left = rest;
    }
    Ok(Rules::of(rules))
}

/// What the line of this number says behind so many rules: its rule, none where it is skipped, or its first fault.
fn line_rule(
    alloc: Global,
    table: &Table,
    number: u64,
    earlier: usize,
    line: &[u8],
) -> Result<Option<Rule>, RulesFault>
    ensures rule { Gives is_memory result (line_rule table.now number earlier line.now) }
    ensures room { IfOk result (λ rule. IfSome rule (λ _. earlier ≢ max_rules)) }
{
    let words = words_of(alloc, line)?;
    if is_skipped(&words) {
        return Ok(None);
    }
    let rule = written_rule(alloc, &words)?.ok_or(RulesFault::BadLine { line: number })?;
    if !is_known(table, &rule) {
        return Err(RulesFault::UnknownSymbol { line: number });
    }
    if has_empty_range(&rule) {
        return Err(RulesFault::EmptyRange { line: number });
    }
    if earlier == MAX_RULES {
        return Err(RulesFault::TooMany { line: number });
    }
    Ok(Some(rule))
}

/// Whether the table has each symbol that a rule names.
pub(crate) fn is_known(table: &Table, rule: &Rule) -> bool
    ensures { result ≡ is_known table.now rule.now }
{
    match rule {
        Rule::Senior | Rule::Unsaturation { .. } => true,
        Rule::Ratio { first, second, .. } => {
            has_element(table, *first) && has_element(table, *second)
        }
        Rule::Group(triples) => are_known(table, triples.items()),
    }
}

/// Whether the table has the symbol of each triple.
fn are_known(table: &Table, triples: &[Triple]) -> bool
    ensures { result ≡ list_all (λ t. is_some (element_of table.now t.symbol)) triples.now }
{
    triples
        .iter()
        .all(|triple| has_element(table, triple.symbol))
}

/// Whether the table has the element of a symbol.
fn has_element(table: &Table, symbol: Symbol) -> bool
    ensures { result ≡ is_some (element_of table.now symbol) }
{
    table.element(symbol).is_some()
}

/// Whether the lower end of a rule's range is greater than the upper one.
fn has_empty_range(rule: &Rule) -> bool
    ensures { result ≡ has_empty_range rule.now }
{
    match rule {
        Rule::Senior | Rule::Group(_) => false,
        Rule::Ratio { low, high, .. } => low > high,
        Rule::Unsaturation { low, high } => low > high,
    }
}
