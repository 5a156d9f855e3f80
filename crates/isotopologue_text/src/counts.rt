//! Which counts are those of an isotopologue.
ghost use Rattle.std.specs.Prelude.{◌≡◌, ◌≤◌, ◌↔◌, IsTrue, MatchOption, length, drop, sum};
ghost use Rattle.formula_text.specs.Masses.{HasItems};
ghost use Rattle.isotopologue_text.specs.Isotopologues.{BeginsWithCounts, IsIsotopologueOf};

use crate::isotopes::{isotope_count, isotopes_of};
use element_table::Table;
use formula_text::Formula;

/// The sum of an element's counts.
fn sum_of(counts: &[u32]) -> u64
    requires { length counts.now ≤ 16 }
    ensures { result ≡ sum counts.now }
{
    let mut sum = 0;
    for count in counts {
        sum += u64::from(*count);
    }
    sum
}

/// The counts after those of an element, `None` exactly where they don't begin with those.
fn after_element(counts: &[u32], isotopes: usize, atoms: u32) -> Option<&[u32]>
    requires { isotopes ≤ 16 }
    ensures { MatchOption result (BeginsWithCounts isotopes atoms counts.now → ⊥)
        (λ rest. BeginsWithCounts isotopes atoms counts.now × (rest.now ≡ drop isotopes counts.now)) }
{
    if counts.len() < isotopes {
        return None;
    }
    let (own, rest) = counts.split_at(isotopes);
    if sum_of(own) == u64::from(atoms) {
        Some(rest)
    } else {
        None
    }
}

/// Whether these counts are those of an isotopologue of the formula: of each item without a label, in
/// the formula's order, a count for each of its isotopes that occur, which sum to the item's atoms.
pub fn is_isotopologue(table: &Table, formula: &Formula, counts: &[u32]) -> bool
    requires { HasItems table.now formula.now }
    ensures { IsTrue result ↔ IsIsotopologueOf table.now formula.now counts.now }
{
    let items = formula.items();
    let mut rest = counts;
    for (item, atoms) in items {
        if item.label == 0 {
            match after_element(rest, isotope_count(isotopes_of(table, item)), *atoms) {
                Some(others) => rest = others,
                None => return false,
            }
        }
    }
    rest.is_empty()
}
