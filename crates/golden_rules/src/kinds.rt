//! The test of a formula by a rule of each kind.

ghost use Rattle.std.specs.Prelude.{◌≡◌, ◌≤◌, ◌*◌};
ghost use Rattle.formula_text.specs.Formulas.{atoms_of};
ghost use Rattle.formula_text.specs.Limits.{max_atoms};
ghost use Rattle.golden_rules.specs.MeetsRules.{element_count, greatest_valence, unsaturation, valence_of, valence_sum};
ghost use Rattle.golden_rules.specs.Verdicts.{are_above, are_below, meets, meets_ratio, meets_senior};

use crate::rule::{Rule, Triple};
use element_table::{Symbol, Table};
use formula_text::Item;

/// Whether a formula meets a rule.
pub(crate) fn meets(table: &Table, formula: &[(Item, u32)], rule: &Rule) -> bool
    requires { atoms_of formula.now ≤ max_atoms }
    ensures { result ≡ meets table.now formula.now rule.now }
{
    match rule {
        Rule::Senior => meets_senior(table, formula),
        Rule::Ratio {
            first,
            second,
            low,
            high,
        } => {
            let a = element_count(formula, *first);
            let b = element_count(formula, *second);
            meets_ratio(a, b, *low, *high)
        }
        Rule::Group(triples) => {
            let triples = triples.items();
            !are_above(formula, triples) || are_below(formula, triples)
        }
        Rule::Unsaturation { low, high } => {
            let unsaturation = unsaturation(table, formula);
            i64::from(*low) <= unsaturation && unsaturation <= i64::from(*high)
        }
    }
}

/// Whether the sum of the valences over all n atoms is even, at least twice the greatest one, and at least
/// `2*(n - 1)`.
fn meets_senior(table: &Table, formula: &[(Item, u32)]) -> bool
    requires { atoms_of formula.now ≤ max_atoms }
    ensures { result ≡ meets_senior table.now formula.now }
{
    let sum = valence_sum(table, formula);
    sum % 2 == 0
        && 2 * greatest_valence(table, formula) <= sum
        && 2 * atom_count(formula).saturating_sub(1) <= sum
}

/// Whether the count `a` is from `low` to `high` thousandths of the count `b`, or `b` is 0.
fn meets_ratio(a: u32, b: u32, low: u32, high: u32) -> bool
    ensures { result ≡ meets_ratio a b low high }
{
    let thousands = 1000 * u64::from(a);
    let b = u64::from(b);
    b == 0 || (u64::from(low) * b <= thousands && thousands <= u64::from(high) * b)
}

/// Whether each count is greater than its first number.
fn are_above(formula: &[(Item, u32)], triples: &[Triple]) -> bool
    requires { atoms_of formula.now ≤ max_atoms }
    ensures { result ≡ are_above formula.now triples.now }
{
    triples.iter().all(|triple| triple.above < element_count(formula, triple.symbol))
}

/// Whether each count is less than its second number.
fn are_below(formula: &[(Item, u32)], triples: &[Triple]) -> bool
    requires { atoms_of formula.now ≤ max_atoms }
    ensures { result ≡ are_below formula.now triples.now }
{
    triples.iter().all(|triple| element_count(formula, triple.symbol) < triple.below)
}

/// The degree of unsaturation.
fn unsaturation(table: &Table, formula: &[(Item, u32)]) -> i64
    requires { atoms_of formula.now ≤ max_atoms }
    ensures { result ≡ unsaturation table.now formula.now }
{
    2 + i64::from(valence_sum(table, formula)) - 2 * i64::from(atom_count(formula))
}

/// The number of all atoms of an element, labelled ones included.
fn element_count(formula: &[(Item, u32)], symbol: Symbol) -> u32
    requires { atoms_of formula.now ≤ max_atoms }
    ensures { result ≡ element_count formula.now symbol }
{
    let mut total = 0;
    for (item, count) in formula {
        if item.symbol == symbol {
            total += count;
        }
    }
    total
}

/// How many atoms there are.
fn atom_count(formula: &[(Item, u32)]) -> u32
    requires { atoms_of formula.now ≤ max_atoms }
    ensures { result ≡ atoms_of formula.now }
{
    formula.iter().map(|(_, count)| *count).sum()
}

/// The sum of the valences over all atoms.
fn valence_sum(table: &Table, formula: &[(Item, u32)]) -> u32
    requires { atoms_of formula.now ≤ max_atoms }
    ensures sum { result ≡ valence_sum table.now formula.now }
    ensures small { result ≤ atoms_of formula.now * 8 }
{
    let mut sum = 0;
    for (item, count) in formula {
        sum += count * valence_of(table, item.symbol);
    }
    sum
}

/// The greatest valence of an atom, 0 to 8.
fn greatest_valence(table: &Table, formula: &[(Item, u32)]) -> u32
    ensures greatest { result ≡ greatest_valence table.now formula.now }
    ensures small { result ≤ 8 }
{
    let mut greatest = 0;
    for (item, _) in formula {
        greatest = valence_of(table, item.symbol).max(greatest);
    }
    greatest
}

/// The valence of an element, 0 to 8.
fn valence_of(table: &Table, symbol: Symbol) -> u32
    ensures valence { result ≡ valence_of table.now symbol }
    ensures small { result ≤ 8 }
{
    match table.element(symbol) {
        None => 0,
        Some(element) => element.valence(),
    }
}
