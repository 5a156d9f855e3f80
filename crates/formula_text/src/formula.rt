//! A molecular formula.
ghost use Rattle.std.specs.Prelude.{◌≡◌, ◌↔◌, ℕ, List, IfOk, IfSome, Some, Ok, IsTrue};
ghost use Rattle.written_items.specs.declared.item.Item.{Item};
ghost use Rattle.formula_text.specs.Formulas.{IsParts, IsFormula, SumsUp, IsSumOf, count_in, atoms_of, formula_in};
ghost use Rattle.formula_text.specs.Formulas.{formula_of};
ghost use Rattle.formula_text.specs.Masses.{HasItems, mass_of};
ghost use Rattle.formula_text.specs.PrintedText.{printed_text};
ghost use Rattle.formula_text.specs.FormulaTexts.{FormulaText};
ghost use Rattle.formula_text.specs.FormulaReader.{read_of};
ghost use Rattle.element_table.specs.Elements.{TableEntries};

use crate::fault::PartsFault;
use crate::parts::Parts;
use element_table::Table;
use std::alloc::{AllocError, Global};
use std::marker::Model;
use written_items::Item;

/// A molecular formula: items with their counts in Hill order, with at least one atom. It has at
/// most 10,000 atoms of an item, 20,000 in all, and 20 items.
#[derive(Debug, Drop)]
pub struct Formula {
    parts: Parts,
}

impl Model for Formula {
    ghost use Rattle.std.specs.Prelude.{List, ℕ};
    ghost use Rattle.written_items.specs.declared.item.Item.{Item};
    ghost use Rattle.formula_text.specs.Formulas.{IsFormula};

    ghost Value = { List (Item × ℕ) };

    ghost view = { λ f. f.parts };

    ghost invariant = { λ f. IsFormula f.parts };
}

impl Formula {
    /// The sum of the parts: equal items are added up, and counts of 0 left out. `None` exactly
    /// where a limit is passed or there is no atom.
    pub fn of(alloc: Global, parts: &[(Item, u32)]) -> Result<Option<Formula>, AllocError>
        ensures sum { IfOk result (λ o. o ≡ formula_of parts.now) }

        // The formula is the only one whose counts are the sums of the parts' counts, and is there
        // where one is.
        ensures counts { IfOk result (λ o. IfSome o (IsSumOf parts.now)) }
        ensures only { IfOk result (λ o. (f : List (Item × ℕ)) → IsSumOf parts.now f → o ≡ Some f) }
    {
        match Parts::of(alloc, parts) {
            Ok(parts) => Ok(Formula::from_parts(parts)),
            Err(PartsFault::Memory(e)) => Err(e),
            Err(PartsFault::TooManyAtoms) => Ok(None),
            Err(PartsFault::TooManyElements) => Ok(None),
        }
    }

    /// The formula of these counts, `None` exactly where there is no atom.
    pub fn from_parts(parts: Parts) -> Option<Formula>
        ensures formula { result ≡ formula_in (Ok parts) }
        ensures parts { IsParts parts }
    {
        if parts.items().is_empty() {
            None
        } else {
            Some(Formula { parts })
        }
    }

    /// The items with their counts, in Hill order.
    pub fn items(&self) -> &[(Item, u32)]
        ensures items { result.now ≡ self.now }
        ensures formula { IsFormula self.now }
    {
        self.parts.items()
    }

    /// How many atoms there are of an item.
    pub fn count(&self, item: Item) -> u32
        ensures count { result ≡ count_in self.now item }
        ensures formula { IsFormula self.now }

        // The counts of all items tell the formula: no other has the same.
        ensures tells { (f : List (Item × ℕ)) → IsFormula f → SumsUp self.now f → f ≡ self.now }
    {
        self.parts.count(item)
    }

    /// How many atoms there are in all, 1 to 20,000.
    pub fn atoms(&self) -> u32
        ensures atoms { result ≡ atoms_of self.now }
        ensures formula { IsFormula self.now }
    {
        self.parts.atoms()
    }

    /// Whether the table has each item: its element, and its isotope where the item is labelled.
    pub fn is_of(&self, table: &Table) -> bool
        ensures known { IsTrue result ↔ HasItems table.now self.now }
    {
        self.parts.is_of(table)
    }

    /// The mass in 10^-12 Da: the sum of count times mass, where a labelled item has its isotope's
    /// mass and another its reference isotope's.
    pub fn mass(&self, table: &Table) -> u64
        requires { HasItems table.now self.now }
        ensures mass { result ≡ mass_of table.now self.now }
        ensures formula { IsFormula self.now }
    {
        self.parts.mass(table)
    }

    /// The printed text: each item once, in Hill order, with its count unless that is 1.
    pub fn print(&self) -> Result<Vec<u8>, AllocError>
        ensures text { IfOk result (λ text. text.items ≡ printed_text self.now) }
        ensures formula { IsFormula self.now }

        // The text is related to this formula and to no other, and it is read back as this formula with
        // each table that has the items.
        ensures related { IfOk result (λ text. FormulaText text.items self.now) }
        ensures no_other { IfOk result (λ text.
            (f : List (Item × ℕ)) → IsFormula f → FormulaText text.items f → f ≡ self.now) }
        ensures read_back { IfOk result (λ text. (table : TableEntries) →
            HasItems table self.now → read_of table text.items ≡ Ok self.now) }
    {
        self.parts.print()
    }
}

impl Clone for Formula {
    ghost is_clone = { λ formula copy. copy ≡ formula };

    fn clone(&self) -> Result<Formula, AllocError> {
        Ok(Formula {
            parts: self.parts.clone()?,
        })
    }
}
