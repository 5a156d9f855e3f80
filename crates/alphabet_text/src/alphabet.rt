//! An alphabet.
ghost use Rattle.std.specs.Prelude.{◌≡◌, map, IfOk};
ghost use Rattle.alphabet_text.specs.Alphabets.{IsAlphabet};

use crate::entries::AlphabetEntry;
use decompose::Limit;
use std::alloc::{AllocError, Global};
use std::marker::Model;
use written_items::Item;

/// The items that a formula may have, 1 to 20 of them, by falling mass, those of one mass by the bytes of their
/// printed texts. Contracts see the list of the entries.
#[derive(Debug, Drop)]
pub struct Alphabet {
    items: Vec<Item>,
    masses: Vec<u64>,
    limits: Vec<Limit>,
}

impl Model for Alphabet {
    ghost use Rattle.std.specs.Prelude.{List};
    ghost use Rattle.alphabet_text.specs.declared.entries.AlphabetEntry.{AlphabetEntry};

    ghost Value = { List AlphabetEntry };

    ghost use Rattle.alphabet_text.specs.Alphabets.{entries_of, HoldsAlphabet};

    ghost view = { λ a. entries_of a.items.items a.masses.items a.limits.items };

    ghost invariant = { λ a. HoldsAlphabet a.items.items a.masses.items a.limits.items };
}

impl Alphabet {
    /// The alphabet of entries in their order.
    pub(crate) fn of(alloc: Global, entries: &[AlphabetEntry]) -> Result<Alphabet, AllocError>
        requires { IsAlphabet entries.now }
        ensures { IfOk result (λ alphabet. alphabet ≡ entries.now) }
    {
        let mut items = Vec::with_capacity(alloc, entries.len())?;
        let mut masses = Vec::with_capacity(alloc, entries.len())?;
        let mut limits = Vec::with_capacity(alloc, entries.len())?;
        for entry in entries {
            items.push(entry.item)?;
            masses.push(entry.mass)?;
            limits.push(entry.limit)?;
        }
        Ok(Alphabet {
            items,
            masses,
            limits,
        })
    }

    /// The items, 1 to 20, none twice.
    pub fn items(&self) -> &[Item]
        ensures items { result.now ≡ map (λ e. e.item) self.now }
        ensures alphabet { IsAlphabet self.now }
    {
        &self.items
    }

    /// The masses of the items' atoms in 10^-12 Da, in the same order: falling or equal, from 0.5 to 400 Da.
    pub fn masses(&self) -> &[u64]
        ensures masses { result.now ≡ map (λ e. e.mass) self.now }
        ensures alphabet { IsAlphabet self.now }
    {
        &self.masses
    }

    /// How many atoms of each item a formula may have, in the same order: 0 to 10,000 where the text has no range.
    pub fn limits(&self) -> &[Limit]
        ensures limits { result.now ≡ map (λ e. e.limit) self.now }
        ensures alphabet { IsAlphabet self.now }
    {
        &self.limits
    }
}
