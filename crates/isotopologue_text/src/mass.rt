//! The mass of an isotopologue.
ghost use Rattle.std.specs.Prelude.{◌≡◌, ◌≤◌, ◌*◌, ◌<◌, All, IsTrue, is_some, sum, length};
ghost use Rattle.element_table.specs.Elements.{IsIsotope};
ghost use Rattle.formula_text.specs.Formulas.{atoms_of};
ghost use Rattle.formula_text.specs.Masses.{HasItems, item_isotope, item_mass, mass_of};
ghost use Rattle.isotopologue_text.specs.Isotopologues.{isotopes_that_occur, formula_isotopes, labelled_items};
ghost use Rattle.isotopologue_text.specs.Isotopologues.{counts_mass, isotopologue_mass_of, IsIsotopologueOf};

use crate::isotopes::{isotope_count, isotopes_of};
use element_table::{Isotope, Table};
use formula_text::{Formula, Item};

/// The sum of count times mass over an element's isotopes that occur.
fn element_mass(isotopes: &[Isotope], counts: &[u32]) -> u64
    requires agree { length counts.now ≡ length (isotopes_that_occur isotopes.now) }
    requires few_atoms { sum counts.now ≤ 20000 }
    requires isotopes { All IsIsotope isotopes.now }
    ensures mass { result ≡ counts_mass (isotopes_that_occur isotopes.now) counts.now }
    ensures bound { result ≤ sum counts.now * 400000000000000 }
{
    let mut mass = 0;
    let mut rest = counts;
    for isotope in isotopes {
        if isotope.weight > 0 {
            mass += u64::from(rest[0]) * isotope.mass;
            rest = &rest[1..];
        }
    }
    mass
}

/// The sum of count times mass over the isotopes of the items without a label.
fn counts_mass(table: &Table, items: &[(Item, u32)], counts: &[u32]) -> u64
    requires known { HasItems table.now items.now }
    requires agree { length counts.now ≡ length (formula_isotopes table.now items.now) }
    requires few_atoms { sum counts.now ≤ 20000 }
    ensures mass { result ≡ counts_mass (formula_isotopes table.now items.now) counts.now }
    ensures bound { result ≤ 8000000000000000000 }
{
    let mut mass = 0;
    let mut rest = counts;
    for (item, _) in items {
        if item.label == 0 {
            let isotopes = isotopes_of(table, item);
            let (own, others) = rest.split_at(isotope_count(isotopes));
            mass += element_mass(isotopes, own);
            rest = others;
        }
    }
    mass
}

/// The mass of an atom of a labelled item: at most 400 Da.
fn labelled_atom_mass(table: &Table, item: &Item) -> u64
    requires labelled { 0 < item.now.label }
    requires known { IsTrue (is_some (item_isotope table.now item.now)) }
    ensures mass { result ≡ item_mass table.now item.now }
    ensures small { result ≤ 400000000000000 }
{
    let element = table.element(item.symbol).unwrap();
    element.isotope(item.label).unwrap().mass
}

/// The mass of the labelled atoms.
pub(crate) fn labelled_mass(table: &Table, items: &[(Item, u32)]) -> u64
    requires known { HasItems table.now items.now }
    requires few_atoms { atoms_of items.now ≤ 20000 }
    ensures mass { result ≡ mass_of table.now (labelled_items items.now) }
    ensures bound { result ≤ 8000000000000000000 }
{
    let mut mass = 0;
    for (item, count) in items {
        if item.label > 0 {
            mass += u64::from(*count) * labelled_atom_mass(table, item);
        }
    }
    mass
}

/// The mass of an isotopologue in 10^-12 Da: the sum of count times mass over its isotopes and the
/// formula's labelled atoms.
pub fn isotopologue_mass(table: &Table, formula: &Formula, counts: &[u32]) -> u64
    requires known { HasItems table.now formula.now }
    requires isotopologue { IsIsotopologueOf table.now formula.now counts.now }
    ensures { result ≡ isotopologue_mass_of table.now formula.now counts.now }
{
    let items = formula.items();
    counts_mass(table, items, counts) + labelled_mass(table, items)
}
