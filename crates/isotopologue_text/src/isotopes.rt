//! The isotopes of an element of a table.
ghost use Rattle.std.specs.Prelude.{◌≡◌, ◌≤◌, ◌<◌, All, IsTrue, is_some, length};
ghost use Rattle.element_table.specs.Elements.{IsIsotope, total_weight, element_of};
ghost use Rattle.isotopologue_text.specs.Isotopologues.{isotopes_that_occur, isotopes_of};

use element_table::{Isotope, Table};
use formula_text::Item;

/// The isotopes of an item's element, those that don't occur included.
pub fn isotopes_of<'a>(table: &'a Table, item: &Item) -> &'a [Isotope]
    requires { IsTrue (is_some (element_of table.now item.now.symbol)) }
    ensures that_occur { isotopes_that_occur result.now ≡ isotopes_of table.now item.now }
    ensures few { length result.now ≤ 16 }
    ensures isotopes { All IsIsotope result.now }
    ensures weighted { 0 < total_weight result.now }
{
    table.element(item.symbol).unwrap().isotopes()
}

/// How many of the isotopes have a weight.
pub fn isotope_count(isotopes: &[Isotope]) -> usize
    ensures { result ≡ length (isotopes_that_occur isotopes.now) }
{
    isotopes.iter().filter(|i| i.weight > 0).count()
}
