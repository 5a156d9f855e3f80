//! The counts of a formula, or of a part of one.
ghost use Rattle.std.specs.Prelude.{◌≡◌, ◌↔◌, ℕ, List, IfOk, Ok, IsTrue};
ghost use Rattle.reader_answers.specs.Answers.{Gives};
ghost use Rattle.formula_text.specs.FormulaFaults.{is_parts_memory};
ghost use Rattle.written_items.specs.declared.item.Item.{Item};
ghost use Rattle.formula_text.specs.Formulas.{IsParts, SumsUp, count_in, atoms_of, parts_of};
ghost use Rattle.formula_text.specs.Masses.{HasItems, mass_of};
ghost use Rattle.formula_text.specs.PrintedText.{printed_text};

use crate::fault::PartsFault;
use crate::limits::MAX_ITEMS;
use crate::mass::{has_item, mass_of};
use crate::print::printed_text;
use crate::sum::{count_of, has_many_atoms, has_many_of_one, sum_of};
use element_table::Table;
use std::alloc::{AllocError, Global};
use std::marker::Model;
use written_items::Item;

/// Items with their counts in Hill order: a part of a formula, which may have no atom. It has at
/// most 10,000 atoms of an item, 20,000 in all, and 20 items.
#[derive(Debug, Drop)]
pub struct Parts {
    items: Vec<(Item, u32)>,
}

impl Model for Parts {
    ghost use Rattle.std.specs.Prelude.{List, ℕ};
    ghost use Rattle.written_items.specs.declared.item.Item.{Item};
    ghost use Rattle.formula_text.specs.Formulas.{IsParts};

    ghost Value = { List (Item × ℕ) };

    ghost view = { λ p. p.items.items };

    ghost invariant = { λ p. IsParts p.items.items };
}

impl Parts {
    /// The sum of the parts: equal items are added up, and counts of 0 left out. Refused where a
    /// limit is passed, with the first of the causes that [`PartsFault`] lists.
    pub fn of(alloc: Global, parts: &[(Item, u32)]) -> Result<Parts, PartsFault>
        ensures sum { Gives is_parts_memory result (parts_of parts.now) }
        ensures parts { IfOk result IsParts }

        // The counts are the sums of the parts' counts, and are the only such within the limits.
        ensures counts { IfOk result (SumsUp parts.now) }
        ensures only { (f : List (Item × ℕ)) →
            IsParts f → SumsUp parts.now f → Gives is_parts_memory result (Ok f) }
    {
        if has_many_atoms(parts) {
            return Err(PartsFault::TooManyAtoms);
        }
        let items = sum_of(alloc, parts)?;
        if has_many_of_one(&items) {
            return Err(PartsFault::TooManyAtoms);
        }
        if items.len() > MAX_ITEMS {
            return Err(PartsFault::TooManyElements);
        }
        Ok(Parts { items })
    }

    /// The items with their counts, in Hill order.
    pub fn items(&self) -> &[(Item, u32)]
        ensures items { result.now ≡ self.now }
        ensures parts { IsParts self.now }
    {
        &self.items
    }

    /// How many atoms there are of an item.
    pub fn count(&self, item: Item) -> u32
        ensures count { result ≡ count_in self.now item }
        ensures parts { IsParts self.now }

        // The counts of all items tell the parts: no others have the same.
        ensures tells { (f : List (Item × ℕ)) → IsParts f → SumsUp self.now f → f ≡ self.now }
    {
        count_of(&self.items, &item)
    }

    /// How many atoms there are in all, at most 20,000.
    pub fn atoms(&self) -> u32
        ensures atoms { result ≡ atoms_of self.now }
        ensures parts { IsParts self.now }
    {
        self.items.iter().map(|(_, count)| *count).sum()
    }

    /// Whether the table has each item: its element, and its isotope where the item is labelled.
    pub fn is_of(&self, table: &Table) -> bool
        ensures known { IsTrue result ↔ HasItems table.now self.now }
    {
        self.items.iter().all(|(item, _)| has_item(table, item))
    }

    /// The mass in 10^-12 Da: the sum of count times mass, where a labelled item has its isotope's
    /// mass and another its reference isotope's.
    pub fn mass(&self, table: &Table) -> u64
        requires { HasItems table.now self.now }
        ensures mass { result ≡ mass_of table.now self.now }
        ensures parts { IsParts self.now }
    {
        mass_of(table, &self.items)
    }

    /// The printed text: each item once, in Hill order, with its count unless that is 1.
    pub fn print(&self) -> Result<Vec<u8>, AllocError>
        ensures text { IfOk result (λ text. text.items ≡ printed_text self.now) }
        ensures parts { IsParts self.now }
    {
        printed_text(*self.items.allocator(), &self.items)
    }
}

impl Clone for Parts {
    ghost is_clone = { λ parts copy. copy ≡ parts };

    fn clone(&self) -> Result<Parts, AllocError> {
        Ok(Parts {
            items: self.items.clone()?,
        })
    }
}
