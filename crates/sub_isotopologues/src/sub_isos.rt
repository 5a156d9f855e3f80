//! The list of an element's subisotopologues.
ghost use Rattle.std.specs.Prelude.{◌≡◌, ◌≤◌, ◌<◌, ◌↔◌, ◌+◌, ◌∷◌, [], ℕ, IfOk, OnOk, OnErr, IfNone, OnSome, MatchOption, All};
ghost use Rattle.std.specs.Prelude.{AllPairs, length, take};
ghost use Rattle.reader_answers.specs.Answers.{Gives, GivesAs};
ghost use Rattle.sub_isotopologues.specs.ListAnswers.{is_memory, within_limit, resumed};
ghost use Rattle.multinomial_bounds.specs.Weight.{IsWeights, IsCounts, weight_of, total_of};
ghost use Rattle.multinomial_bounds.specs.Bounds.{certainty, floor_of, ceiling_of, IsEnclosure};
ghost use Rattle.multinomial_bounds.specs.Mode.{mode_bound};
ghost use Rattle.sub_isotopologues.specs.SubIsotopologues.{SubIsotopologue, AreOthers, raised};
ghost use Rattle.sub_isotopologues.specs.Listings.{Listing, listing_of, lowered, with_given, items_of, places_left};
ghost use Rattle.sub_isotopologues.specs.Listings.{max_sub_isotopologues};

use crate::cutoff::{cutoff_of_factor, cutoff_of_factors};
use crate::fault::SubFault;
use crate::grown::GrownItems;
use crate::others::Others;
use crate::sub_iso::SubIso;
use multinomial_bounds::{CERTAINTY, Enclosure, MAX_ATOMS};
use std::alloc::{AllocError, Global};
use std::marker::Model;

/// The subisotopologues of one element whose product with the others is above a threshold, by falling upper bound, ties
/// in the lexicographic order of their counts.
///
/// The list is grown on demand: a lower threshold makes it longer and changes no item. It is seen as the weights and
/// atoms of the element, the others, the threshold, and how many items were given. Items that were grown are kept where
/// the list is begun again beside other elements.
#[derive(Drop)]
pub struct SubIsos {
    grown: GrownItems,
    /// How many of the grown items are above the threshold.
    listed: usize,
    before: u64,
    after: Vec<u64>,
    threshold: u64,
    given: usize,
}

impl Model for SubIsos {
    ghost use Rattle.sub_isotopologues.specs.Listings.{Listing};
    ghost use Rattle.sub_isotopologues.specs.Growth.{IsListed};

    ghost Value = { Listing };

    ghost view = { λ s. record {
      element = s.grown.element;
      before = s.before;
      after = s.after.items;
      threshold = s.threshold;
      given = s.given;
    } };

    ghost invariant = { λ s. IsListed (record {
      element = s.grown.element;
      before = s.before;
      after = s.after.items;
      threshold = s.threshold;
      given = s.given;
    }) s.grown s.listed };
}

impl SubIsos {
    /// The list of an element of 1 to 16 isotopes with weights from 1 to 10^12, by rising mass number, and at most
    /// [`MAX_ATOMS`] atoms, with the threshold 10^18 and so without an item.
    pub fn start(
        alloc: Global,
        weights: &[u64],
        atoms: u32,
        others: Others<'_>,
    ) -> Result<SubIsos, AllocError>
        requires weights_in_range { IsWeights weights.now }
        requires few_atoms { atoms ≤ MAX_ATOMS }
        requires others_in_range { AreOthers others.before others.after.now }
        ensures start { IfOk result (λ s.
            s ≡ listing_of weights.now atoms others.entry.before others.entry.after.now certainty) }
        ensures empty { IfOk result (λ s. items_of s ≡ []) }
    {
        Ok(SubIsos {
            grown: GrownItems::start(alloc, weights, atoms)?,
            listed: 0,
            before: others.before,
            after: others.after.to_vec(alloc)?,
            threshold: CERTAINTY,
            given: 0,
        })
    }

    /// Begins the list again beside other elements, with the threshold 10^18 and so without an item. The items that were
    /// grown are kept: lowering the threshold as far as before finds them again without a search. Without memory
    /// nothing changes.
    pub fn restart(&mut self, others: Others<'_>) -> Result<(), AllocError>
        requires others_in_range { AreOthers others.before others.after.now }
        ensures restarted { OnOk result (self.new ≡ listing_of self.old.element.weights self.old.element.atoms
            others.entry.before others.entry.after.now certainty) }
        ensures unchanged { OnErr result (self.new ≡ self.old) }
    {
        replace_bounds(&mut self.after, others.after)?;
        self.before = others.before;
        self.threshold = CERTAINTY;
        self.given = 0;
        self.listed = 0;
        Ok(())
    }

    /// The weights of the element's isotopes, by rising mass number.
    pub fn weights(&self) -> &[u64]
        ensures { result.now ≡ self.now.element.weights }
    {
        self.grown.weights()
    }

    /// How many atoms of the element there are.
    pub fn atoms(&self) -> u32
        ensures { result ≡ self.now.element.atoms }
    {
        self.grown.atoms()
    }

    /// The enclosure of the mode's probability, in units of 10^-18.
    pub fn mode(&self) -> Enclosure
        ensures lo { result.lo ≡ mode_bound floor_of self.now.element.weights self.now.element.atoms }
        ensures hi { result.hi ≡ mode_bound ceiling_of self.now.element.weights self.now.element.atoms }
    {
        self.grown.mode()
    }

    /// How many items are kept in memory: those of the list, and more where it was longer before it was begun again.
    pub fn kept_items(&self) -> usize
        ensures at_least { length (items_of self.now) ≤ result }
        ensures at_most { result ≤ max_sub_isotopologues }
    {
        self.grown.items().len()
    }

    /// The threshold that the products of the items are above, in units of 10^-18.
    pub fn threshold(&self) -> u64
        ensures { result ≡ self.now.threshold }
    {
        self.threshold
    }

    /// Lowers the threshold, in units of 10^-18: adds all counts whose product with the others is above the new one and
    /// not above the one kept. The items from before stay at the front, as they were. Time and memory are in proportion
    /// to what is added that wasn't grown before, and then to the number of items for each lowering.
    ///
    /// `TooMany` exactly where the list would have more than 1,048,576 items, and `Memory` for want of memory. The list
    /// is then as it was.
    pub fn lower_to(&mut self, threshold: u64) -> Result<(), SubFault>
        requires lower { threshold ≤ self.old.threshold }
        ensures gives { GivesAs (λ _. self.new) is_memory result (within_limit (lowered self.old threshold)) }
        ensures older_first { OnOk result (take (length (items_of self.old)) (items_of self.new) ≡ items_of self.old) }
        ensures unchanged { OnErr result (self.new ≡ self.old) }
    {
        let later = cutoff_of_factors(threshold, &self.after);
        self.lower_beside(threshold, later)
    }

    /// The same as `lower_to`, where the greatest product of the elements up to this one is known that isn't above the
    /// new threshold together with the later ones, as [`cutoff_of_factor`] gives it element by element. Lists that are
    /// lowered together find it once for all.
    pub fn lower_beside(&mut self, threshold: u64, later: u64) -> Result<(), SubFault>
        requires lower { threshold ≤ self.old.threshold }
        requires at_most_one { later ≤ certainty }
        requires later { (hi : ℕ) → hi ≤ certainty → (threshold < raised hi self.old.after) ↔ (later < hi) }
        ensures gives { GivesAs (λ _. self.new) is_memory result (within_limit (lowered self.old threshold)) }
        ensures older_first { OnOk result (take (length (items_of self.old)) (items_of self.new) ≡ items_of self.old) }
        ensures unchanged { OnErr result (self.new ≡ self.old) }
    {
        let above = cutoff_of_factor(later, self.before);
        self.grown.grow_to(above)?;
        self.listed = self.grown.count_above(above);
        self.threshold = threshold;
        Ok(())
    }

    /// The items of the list, by falling upper bound, ties in the lexicographic order of their counts.
    pub fn items(&self) -> &[SubIso]
        ensures items { result.now ≡ items_of self.now }
        ensures few { length (items_of self.now) ≤ max_sub_isotopologues }

        // What holds of the items.
        ensures counts { All (λ i. IsCounts self.now.element.weights self.now.element.atoms i.counts) result.now }
        ensures encloses { All (λ i. IsEnclosure i.lo i.hi
            (weight_of self.now.element.weights self.now.element.atoms i.counts)
            (total_of self.now.element.weights self.now.element.atoms)) result.now }
        ensures falling { AllPairs (λ i j. j.hi ≤ i.hi) result.now }
    {
        &self.grown.items()[..self.listed]
    }

    /// The place of the next item that was not given yet, the first being 0. None exactly where all were given.
    pub fn next(&mut self) -> Option<usize>
        ensures next { MatchOption result (places_left self.old ≡ []) (λ place.
            places_left self.old ≡ place ∷ places_left self.new) }
        ensures given { OnSome result (self.new ≡ with_given self.old (self.old.given + 1)) }
        ensures unchanged { IfNone result (self.new ≡ self.old) }
    {
        if self.given == self.listed {
            return None;
        }
        let place = self.given;
        self.given += 1;
        Some(place)
    }

    /// How many items were given, with which `resume` goes on.
    pub fn token(&self) -> u64
        ensures value { result ≡ self.now.given }
        ensures within { result ≤ length (items_of self.now) }
    {
        self.given as u64
    }

    /// The list of `start` lowered to a threshold, of which so many items were given: `next` gives exactly the others.
    ///
    /// `TooMany` exactly where the list has more than 1,048,576 items, else `NotInList` exactly where the token is
    /// greater than their number; `Memory` for want of memory.
    pub fn resume(
        alloc: Global,
        weights: &[u64],
        atoms: u32,
        threshold: u64,
        others: Others<'_>,
        token: u64,
    ) -> Result<SubIsos, SubFault>
        requires weights_in_range { IsWeights weights.now }
        requires few_atoms { atoms ≤ MAX_ATOMS }
        requires at_most_one { threshold ≤ certainty }
        requires others_in_range { AreOthers others.before others.after.now }
        ensures { Gives is_memory result
            (resumed (listing_of weights.now atoms others.entry.before others.entry.after.now threshold) token) }
    {
        let mut list = SubIsos::start(alloc, weights, atoms, others)?;
        list.lower_to(threshold)?;
        if token > list.listed as u64 {
            return Err(SubFault::NotInList);
        }
        list.given = token as usize;
        Ok(list)
    }
}

/// Writes other bounds in place of those that are kept, in their memory where they fit.
fn replace_bounds(kept: &mut Vec<u64>, bounds: &[u64]) -> Result<(), AllocError>
    ensures replaced { OnOk result (kept.new.items ≡ bounds.now) }
    ensures unchanged { OnErr result (kept.new.items ≡ kept.old.items) }
{
    if kept.len() < bounds.len() {
        *kept = bounds.to_vec(*kept.allocator())?;
        return Ok(());
    }
    kept.truncate(bounds.len());
    kept.copy_from_slice(bounds);
    Ok(())
}
