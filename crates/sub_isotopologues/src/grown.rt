//! An element's items down to a bound.
//!
//! They depend on nothing but the element, so that they serve beside all other elements.
ghost use Rattle.std.specs.Prelude.{◌≡◌, ◌≤◌, ◌<◌, IfOk, IfErr, OnOk, OnErr, length, take};
ghost use Rattle.multinomial_bounds.specs.Weight.{IsWeights};
ghost use Rattle.multinomial_bounds.specs.Bounds.{certainty, floor_of, ceiling_of};
ghost use Rattle.multinomial_bounds.specs.Mode.{mode_bound};
ghost use Rattle.sub_isotopologues.specs.SubIsotopologues.{SubIsotopologue};
ghost use Rattle.sub_isotopologues.specs.Growth.{Grown, items_over, grown_items};
ghost use Rattle.sub_isotopologues.specs.Listings.{max_sub_isotopologues};
ghost use Rattle.sub_isotopologues.specs.ListAnswers.{OnlyTooMany};

use crate::children::Wanted;
use crate::fault::SubFault;
use crate::growth::{added_items, unlisted_bounds};
use crate::sub_iso::SubIso;
use multinomial_bounds::{CERTAINTY, Enclosure, MAX_ATOMS, mode_of};
use std::alloc::{AllocError, Global};
use std::marker::Model;

/// The most items of a list.
pub const MAX_SUB_ISOTOPOLOGUES: u64 = 1_048_576;

/// All counts of an element with an upper bound above a number, in their order. A lower number adds items at the end.
#[derive(Drop)]
pub(crate) struct GrownItems {
    weights: Vec<u64>,
    atoms: u32,
    /// The number that the upper bounds are above, in units of 10^-18.
    above: u64,
    mode: SubIso,
    items: Vec<SubIso>,
    /// For the first items what bounds their children that are no items, so that a lower number passes over those that
    /// have none above it.
    unlisted: Vec<u64>,
}

impl Model for GrownItems {
    ghost use Rattle.sub_isotopologues.specs.Growth.{Grown, AreGrown};

    ghost Value = { Grown };

    ghost view = { λ g. record {
      element = record { weights = g.weights.items; atoms = g.atoms };
      above = g.above;
    } };

    ghost invariant = { λ g. AreGrown (record {
      element = record { weights = g.weights.items; atoms = g.atoms };
      above = g.above;
    }) g.mode g.items.items g.unlisted.items };
}

impl GrownItems {
    /// Those of an element above 1, which are none.
    pub(crate) fn start(
        alloc: Global,
        weights: &[u64],
        atoms: u32,
    ) -> Result<GrownItems, AllocError>
        requires weights_in_range { IsWeights weights.now }
        requires few_atoms { atoms ≤ MAX_ATOMS }
        ensures { IfOk result (λ g. g ≡ record {
          element = record { weights = weights.now; atoms = atoms };
          above = certainty;
        }) }
    {
        let (mode, enclosure) = mode_of(alloc, weights, atoms)?;
        Ok(GrownItems {
            weights: weights.to_vec(alloc)?,
            atoms,
            above: CERTAINTY,
            mode: SubIso::new(mode.counts(), enclosure),
            items: Vec::new(alloc),
            unlisted: Vec::new(alloc),
        })
    }

    /// The weights of the element's isotopes, by rising mass number.
    pub(crate) fn weights(&self) -> &[u64]
        ensures { result.now ≡ self.now.element.weights }
    {
        &self.weights
    }

    pub(crate) fn atoms(&self) -> u32
        ensures { result ≡ self.now.element.atoms }
    {
        self.atoms
    }

    /// The enclosure of the mode's probability, in units of 10^-18.
    pub(crate) fn mode(&self) -> Enclosure
        ensures lo { result.lo ≡ mode_bound floor_of self.now.element.weights self.now.element.atoms }
        ensures hi { result.hi ≡ mode_bound ceiling_of self.now.element.weights self.now.element.atoms }
    {
        self.mode.enclosure()
    }

    pub(crate) fn items(&self) -> &[SubIso]
        ensures items { result.now ≡ grown_items self.now }
        ensures few { length (grown_items self.now) ≤ max_sub_isotopologues }
    {
        &self.items
    }

    /// How many items have an upper bound above a number. They are the first ones.
    pub(crate) fn count_above(&self, above: u64) -> usize
        requires { self.now.above ≤ above }
        ensures within { result ≤ length (grown_items self.now) }
        ensures few { result ≤ max_sub_isotopologues }
        ensures first { take result (grown_items self.now)
            ≡ items_over self.now.element.weights self.now.element.atoms above }
    {
        self.items
            .partition_point(|item| above < item.enclosure().hi)
    }

    /// Adds the items that are above a lower number, and nothing where all such items are there. After an error the
    /// items are as they were.
    pub(crate) fn grow_to(&mut self, above: u64) -> Result<(), SubFault>
        ensures element { self.new.element ≡ self.old.element }
        ensures low { OnOk result (self.new.above ≤ above) }
        ensures unchanged { OnErr result (self.new ≡ self.old) }
        ensures cause { IfErr result (OnlyTooMany (max_sub_isotopologues
            < length (items_over self.old.element.weights self.old.element.atoms above))) }
    {
        if self.above <= above {
            return Ok(());
        }
        let wanted = Wanted {
            above,
            up_to: self.above,
            most: MAX_SUB_ISOTOPOLOGUES as usize - self.items.len(),
        };
        let alloc = *self.items.allocator();
        let mut added = added_items(
            alloc,
            &self.weights,
            &self.mode,
            &self.items,
            &self.unlisted,
            wanted,
        )?;
        let unlisted = unlisted_bounds(
            alloc,
            &self.weights,
            &self.mode,
            &self.items,
            &self.unlisted,
            wanted,
        )?;
        self.items.append(&mut added)?;
        self.unlisted = unlisted;
        self.above = above;
        Ok(())
    }
}
