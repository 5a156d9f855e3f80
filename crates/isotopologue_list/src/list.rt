//! All isotopologues of a formula with their enclosures.

use crate::element_list::ElementList;
use isotopologue_sets::ElementAtoms;
use multinomial_bounds::{Enclosure, times};
use std::alloc::{AllocError, Global};
use std::cmp::Ordering;
use std::marker::Model;

/// All isotopologues of a list of elements, each with the enclosure of its probability, in lexicographic
/// order of their counts. It keeps the counts of each element once, and for each isotopologue only its
/// enclosure: the place of an isotopologue says which counts of each element it has, the last element's
/// changing first.
#[derive(Drop)]
pub struct IsotopologueList {
    elements: Vec<ElementList>,
    enclosures: Vec<Enclosure>,
}

impl Model for IsotopologueList {
    ghost use Rattle.std.specs.Prelude.{◌≡◌, ℕ, List, map};
    ghost use Rattle.multinomial_bounds.specs.Compositions.{choices};
    ghost use Rattle.isotopologue_sets.specs.Covers.{Member};
    ghost use Rattle.isotopologue_list.specs.ListedParts.{isotopologue_from};

    ghost Value = { List Member };

    ghost view = { λ l. map isotopologue_from (choices l.elements.items) };

    ghost invariant = { λ l. map {B = ℕ × ℕ} (λ e. (e.lo, e.hi)) l.enclosures.items
        ≡ map {B = ℕ × ℕ} (λ i. (i.lo, i.hi)) (map isotopologue_from (choices l.elements.items)) };
}

impl IsotopologueList {
    ghost use Rattle.std.specs.Prelude.{◌≡◌, ◌<◌, ℕ, All, AllPairs, Contains, IfOk, List, map, length, slice_index_or};
    ghost use Rattle.std.specs.Ordering.{nat_cmp};
    ghost use Rattle.std.specs.Cmp.Lexicographic.{slice_cmp};
    ghost use Rattle.multinomial_bounds.specs.Bounds.{IsEnclosure};
    ghost use Rattle.multinomial_bounds.specs.Isotopologue.{IsIsotopologue, isotopologue_weight, all_weight};
    ghost use Rattle.multinomial_bounds.specs.Compositions.{isotopologues_of};
    ghost use Rattle.isotopologue_sets.specs.Covers.{Member, member_of};

    /// Lists all isotopologues of the elements. Memory is in proportion to their number, which `count_up_to`
    /// tells beforehand, and time to that and to the number of each element's counts times its logarithm.
    /// The only error is want of memory.
    pub fn of(alloc: Global, elements: &[ElementAtoms]) -> Result<IsotopologueList, AllocError>
        ensures all { IfOk result (λ l. l ≡ map (member_of elements.now) (isotopologues_of elements.now)) }

        // What follows from these numbers.
        ensures isotopologues { IfOk result (λ l. All (λ i. IsIsotopologue elements.now i.counts) l) }
        ensures elements { IfOk result (λ l. All (λ i. length i.counts ≡ length elements.now) l) }
        ensures each { (i : List (List ℕ)) → IsIsotopologue elements.now i →
            IfOk result (λ l. Contains l (member_of elements.now i)) }
        ensures in_order { IfOk result (λ l.
            AllPairs (λ i j. slice_cmp (slice_cmp nat_cmp) i.counts j.counts ≡ Ordering.Less) l) }
        ensures encloses { IfOk result (λ l. All (λ i.
            IsEnclosure i.lo i.hi (isotopologue_weight elements.now i.counts) (all_weight elements.now)) l) }
    {
        let mut lists = Vec::new(alloc);
        for element in elements {
            lists.push(ElementList::of(alloc, element)?)?;
        }
        let mut enclosures = Vec::new(alloc);
        append_products(&lists, 0, Enclosure::certain(), &mut enclosures)?;
        Ok(IsotopologueList {
            elements: lists,
            enclosures,
        })
    }

    /// How many isotopologues there are.
    pub fn len(&self) -> usize
        ensures { result ≡ length self.now }
    {
        self.enclosures.len()
    }

    /// The enclosures of all isotopologues in their order, in units of 10^-18.
    pub fn enclosures(&self) -> &[Enclosure]
        ensures { map {B = ℕ × ℕ} (λ e. (e.lo, e.hi)) result.now ≡ map (λ i. (i.lo, i.hi)) self.now }
    {
        &self.enclosures
    }

    /// The enclosure of the isotopologue at a place, in units of 10^-18.
    pub fn enclosure(&self, place: usize) -> Enclosure
        requires { place < length self.now }
        ensures lo { (d : Member) → result.lo ≡ (slice_index_or self.now place d).lo }
        ensures hi { (d : Member) → result.hi ≡ (slice_index_or self.now place d).hi }
    {
        self.enclosures[place]
    }

    /// The counts that the isotopologue at a place has of an element.
    pub fn counts(&self, place: usize, element: usize) -> &[u32]
        requires place_within { place < length self.now }
        requires element_within { All (λ i. element < length i.counts) self.now }
        ensures { (d : Member) →
            result.now ≡ slice_index_or (slice_index_or self.now place d).counts element result.now }
    {
        let elements = self.elements.as_slice();
        let list = &elements[element];
        list.counts(choice_of(elements, place, element))
    }
}

ghost use Rattle.std.specs.Prelude.{◌≡◌, ◌++◌, ◌/◌, ◌%◌, ◌+◌, ◌<◌, ℕ, [], IfOk, map, drop, length, slice_index_or};
ghost use Rattle.multinomial_bounds.specs.Compositions.{choices};
ghost use Rattle.isotopologue_list.specs.ListedParts.{ends_from};

// Appends the enclosures of all choices of counts of the elements from a place on, each times the
// enclosure of the counts before.
fn append_products(
    elements: &[ElementList],
    place: usize,
    before: Enclosure,
    enclosures: &mut Vec<Enclosure>,
) -> Result<(), AllocError>
    ensures { IfOk result (λ _. map {B = ℕ × ℕ} (λ e. (e.lo, e.hi)) enclosures.new.items
        ≡ map {B = ℕ × ℕ} (λ e. (e.lo, e.hi)) enclosures.old.items
        ++ map (ends_from before.lo before.hi) (choices (drop place elements.now))) }
{
    if place >= elements.len() {
        enclosures.push(before)?;
        return Ok(());
    }
    let element = &elements[place];
    for row in 0..element.len() {
        append_products(
            elements,
            place + 1,
            times(before, element.enclosure(row)),
            enclosures,
        )?;
    }
    Ok(())
}

// Which of an element's counts the choice at a place has. The last element's counts change first.
fn choice_of(elements: &[ElementList], place: usize, element: usize) -> usize
    requires place_within { place < length (choices elements.now) }
    requires element_within { element < length elements.now }
    ensures { result ≡ place / length (choices (drop (element + 1) elements.now)) % length (slice_index_or elements.now element []) }
{
    let mut choice = place;
    for later in (element + 1..elements.len()).rev() {
        let list = &elements[later];
        choice /= list.len();
    }
    let list = &elements[element];
    choice % list.len()
}
