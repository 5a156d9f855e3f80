//! All counts of one element with their enclosures.

use crate::composition::{append_compositions, row_at};
use crate::enclosures::enclosures_of;
use isotopologue_sets::ElementAtoms;
use multinomial_bounds::Enclosure;
use std::alloc::{AllocError, Global};
use std::marker::Model;

/// All counts of an element's isotopes in lexicographic order, each with the enclosure of its
/// probability. The counts stand end to end.
#[derive(Drop)]
pub(crate) struct ElementList {
    places: usize,
    counts: Vec<u32>,
    enclosures: Vec<Enclosure>,
}

impl Model for ElementList {
    ghost use Rattle.std.specs.Prelude.{◌≡◌, ◌*◌, List, map, length};
    ghost use Rattle.isotopologue_list.specs.Listed.{BoundedCounts};
    ghost use Rattle.isotopologue_list.specs.ListedParts.{rows};

    ghost Value = { List BoundedCounts };

    ghost view = { λ l. rows l.places l.counts.items (map (λ e. (e.lo, e.hi)) l.enclosures.items) };

    ghost invariant = { λ l. length l.counts.items ≡ length l.enclosures.items * l.places };
}

impl ElementList {
    ghost use Rattle.std.specs.Prelude.{◌≡◌, ◌<◌, ◌≤◌, IfOk, map, length, slice_index_or};
    ghost use Rattle.multinomial_bounds.specs.Weight.{IsWeights};
    ghost use Rattle.multinomial_bounds.specs.Compositions.{counts_of};
    ghost use Rattle.isotopologue_list.specs.Listed.{BoundedCounts, bounded_counts};

    /// All counts of an element.
    pub(crate) fn of(alloc: Global, element: &ElementAtoms) -> Result<ElementList, AllocError>
        ensures all { IfOk result (λ l. l ≡ map (bounded_counts element.now.weights) (counts_of element.now)) }
        ensures weights_in_range { IsWeights element.now.weights }
    {
        let weights = element.weights();
        let places = weights.len();
        let mut first = vec![in alloc; 0u32; places]?;
        let mut counts = Vec::new(alloc);
        append_compositions(&mut first, 0, element.atoms(), &mut counts)?;
        let enclosures = enclosures_of(alloc, weights, element.atoms(), &counts)?;
        Ok(ElementList {
            places,
            counts,
            enclosures,
        })
    }

    /// How many counts there are.
    pub(crate) fn len(&self) -> usize
        ensures { result ≡ length self.now }
    {
        self.enclosures.len()
    }

    /// The counts at a place.
    pub(crate) fn counts(&self, place: usize) -> &[u32]
        requires { place < length self.now }
        ensures { (d : BoundedCounts) → result.now ≡ (slice_index_or self.now place d).counts }
    {
        row_at(&self.counts, self.places, place)
    }

    /// The enclosure at a place.
    pub(crate) fn enclosure(&self, place: usize) -> Enclosure
        requires { place < length self.now }
        ensures lo { (d : BoundedCounts) → result.lo ≡ (slice_index_or self.now place d).lo }
        ensures hi { (d : BoundedCounts) → result.hi ≡ (slice_index_or self.now place d).hi }
    {
        self.enclosures[place]
    }
}
