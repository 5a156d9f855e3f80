//! The mass of a formula.
ghost use Rattle.std.specs.Prelude.{◌≡◌, ◌≤◌, IsTrue, is_some};
ghost use Rattle.element_table.specs.Limits.{max_isotope_mass};
ghost use Rattle.formula_text.specs.Limits.{max_atoms};
ghost use Rattle.formula_text.specs.Formulas.{atoms_of};
ghost use Rattle.formula_text.specs.Masses.{HasItems, item_isotope, item_mass, mass_of};

use element_table::Table;
use written_items::Item;

/// The mass of an atom of an item, in 10^-12 Da: at most 400 Da.
fn item_mass(table: &Table, item: &Item) -> u64
    requires { IsTrue (is_some (item_isotope table.now item.now)) }
    ensures mass { result ≡ item_mass table.now item.now }
    ensures small { result ≤ max_isotope_mass }
{
    let element = table.element(item.symbol).unwrap();
    if item.label == 0 {
        element.reference().mass
    } else {
        element.isotope(item.label).unwrap().mass
    }
}

/// The sum of count times mass, in 10^-12 Da.
pub fn mass_of(table: &Table, items: &[(Item, u32)]) -> u64
    requires known { HasItems table.now items.now }
    requires few_atoms { atoms_of items.now ≤ max_atoms }
    ensures { result ≡ mass_of table.now items.now }
{
    let mut mass = 0;
    for (item, count) in items {
        mass += u64::from(*count) * item_mass(table, item);
    }
    mass
}

/// Whether the table has an item's element, and its isotope where the item is labelled.
pub fn has_item(table: &Table, item: &Item) -> bool
    ensures { result ≡ is_some (item_isotope table.now item.now) }
{
    match table.element(item.symbol) {
        None => false,
        Some(element) => item.label == 0 || element.isotope(item.label).is_some(),
    }
}
