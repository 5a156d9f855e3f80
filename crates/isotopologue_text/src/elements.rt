//! The elements of a formula.
ghost use Rattle.std.specs.Prelude.{◌≡◌, ◌≤◌, ◌<◌, All, IfOk, length, map};
ghost use Rattle.multinomial_bounds.specs.Weight.{IsWeights};
ghost use Rattle.isotopologue_sets.specs.Layers.{AreElements};
ghost use Rattle.element_table.specs.Elements.{IsIsotope, total_weight};
ghost use Rattle.formula_text.specs.Masses.{HasItems};
ghost use Rattle.isotopologue_text.specs.Isotopologues.{isotopes_that_occur, formula_elements};

use crate::isotopes::isotopes_of;
use element_table::{Isotope, Table};
use formula_text::Formula;
use isotopologue_sets::ElementAtoms;
use std::alloc::{AllocError, Global};

/// The abundances of the isotopes that occur.
fn weights_of(alloc: Global, isotopes: &[Isotope]) -> Result<Vec<u64>, AllocError>
    ensures { IfOk result (λ v. v.items ≡ map (λ i. i.weight) (isotopes_that_occur isotopes.now)) }
{
    isotopes
        .iter()
        .filter(|i| i.weight > 0)
        .map(|i| i.weight)
        .collect(alloc)
}

/// So many atoms of an element of these isotopes.
fn element_of(alloc: Global, isotopes: &[Isotope], atoms: u32) -> Result<ElementAtoms, AllocError>
    requires few_isotopes { length isotopes.now ≤ 16 }
    requires isotopes { All IsIsotope isotopes.now }
    requires weighted { 0 < total_weight isotopes.now }
    requires few_atoms { atoms ≤ 10000 }
    ensures value { IfOk result (λ e. e ≡
        record { weights = map (λ i. i.weight) (isotopes_that_occur isotopes.now); atoms = atoms }) }
    ensures weights_in_range { IfOk result (λ e. IsWeights e.weights) }
{
    let weights = weights_of(alloc, isotopes)?;
    Ok(ElementAtoms::from_weights(weights, atoms))
}

/// The elements whose isotopologues a formula has: of each item without a label, in the formula's order,
/// the weights of the isotopes that occur in 10^-12, by rising mass number, and the item's atoms.
pub fn elements_of(
    alloc: Global,
    table: &Table,
    formula: &Formula,
) -> Result<Vec<ElementAtoms>, AllocError>
    requires { HasItems table.now formula.now }
    ensures elements { IfOk result (λ v. v.items ≡ formula_elements table.now formula.now) }
    ensures within_limits { IfOk result (λ v. AreElements v.items) }
{
    let items = formula.items();
    let mut elements = Vec::with_capacity(alloc, items.len())?;
    for (item, atoms) in items {
        if item.label == 0 {
            elements.push(element_of(alloc, isotopes_of(table, item), *atoms)?)?;
        }
    }
    Ok(elements)
}
