//! Lists of items that are kept from one formula to the next.
//!
//! An element's items depend on nothing but its weights and how many atoms of it there are, and the formulas of one mass
//! have few different pairs of these, those of all masses up to 1,000 Da some hundreds. So a list that was grown for one
//! formula serves each later one with the same pair.
ghost use Rattle.std.specs.Prelude.{◌≡◌, ◌+◌, ◌≤◌, ℕ, None, IfOk, IfSome, OnOk, length, slice_index_or};
ghost use Rattle.std.specs.Bool.{OnTrue};
ghost use Rattle.layered_envelope.specs.ElementLists.{IsPlaceOf};

use std::alloc::{AllocError, Global};
use std::marker::Model;
use sub_isotopologues::SubIsos;

/// The most places and items that are kept together. A place takes some 240 bytes and an item 96, so that they fill 16
/// MB at most, whatever the formulas are; those of a mass up to 1,000 Da need a sixth of it.
const MAX_KEPT: usize = 65_536;

/// The lists of elements, kept from one formula to the next, and how many layers the last formula took.
#[derive(Drop)]
pub struct GrownLists {
    elements: Vec<ElementLists>,
    /// The number of the reaching layer that the last formula had, and 0 before the first one.
    layers: u32,
    /// The most places and items that are kept together.
    most: usize,
    /// How many more there is room for.
    room: usize,
}

impl Model for GrownLists {
    ghost Value = { Unit {0} };

    ghost view = { λ _. tt };
}

/// The lists of one element, each at the place of its number of atoms. It is seen as the weights of the element.
#[derive(Drop)]
struct ElementLists {
    weights: Vec<u64>,
    by_atoms: Vec<Option<SubIsos>>,
}

impl Model for ElementLists {
    ghost use Rattle.std.specs.Prelude.{List, ℕ};
    ghost use Rattle.layered_envelope.specs.ElementLists.{AreListsOf};

    ghost Value = { List ℕ };

    ghost view = { λ e. e.weights.items };

    ghost invariant = { λ e. AreListsOf e.weights.items e.by_atoms.items };
}

impl GrownLists {
    /// None yet.
    pub fn new(alloc: Global) -> GrownLists {
        GrownLists::with_room(alloc, MAX_KEPT)
    }

    /// None ever, for one formula alone: there is no room for a list.
    pub fn of_none(alloc: Global) -> GrownLists {
        GrownLists::with_room(alloc, 0)
    }

    /// None yet, with room for so many places and items.
    fn with_room(alloc: Global, most: usize) -> GrownLists {
        GrownLists {
            elements: Vec::new(alloc),
            layers: 0,
            most,
            room: most,
        }
    }

    /// The number of the layer that the last formula had, a guess for the next one; 0 where there is none.
    pub fn layers(&self) -> u32 {
        self.layers
    }

    /// Keeps the number of a formula's layer. Where no list is kept, no number is.
    pub fn keep_layers(&mut self, layers: u32) {
        if self.most > 0 {
            self.layers = layers;
        }
    }

    /// Takes the list of so many atoms of an element, if it is kept.
    pub(crate) fn take(&mut self, weights: &[u64], atoms: u32) -> Option<SubIsos>
        ensures { IfSome result (λ l. l.element ≡ record { weights = weights.now; atoms = atoms }) }
    {
        let place = place_of(&self.elements, weights)?;
        let list = self.elements[place].take(atoms)?;
        self.room = self.room.saturating_add(list.kept_items());
        Some(list)
    }

    /// Keeps a list. It is dropped where one of as many atoms of the element is kept, where it alone is longer than all
    /// that may be kept, and without memory for it. Where there is no room beside the others, those are dropped.
    pub(crate) fn keep(&mut self, list: SubIsos) {
        let most_needed = list.atoms() as usize + 1 + list.kept_items();
        if most_needed > self.most {
            return;
        }
        if most_needed > self.room {
            self.clear();
        }
        self.put(list);
    }

    /// Drops all lists.
    fn clear(&mut self) {
        self.elements.clear();
        self.room = self.most;
    }

    /// Puts a list in its place, if there is room for it.
    fn put(&mut self, list: SubIsos) {
        let Ok(place) = place_or_new(&mut self.elements, list.weights()) else {
            return;
        };
        let lists = &mut self.elements[place];
        let Some(places) = lists.places_needed(list.atoms()) else {
            return;
        };
        let needed = places + list.kept_items();
        if needed <= self.room && lists.put(list).is_ok() {
            self.room -= needed;
        }
    }
}

/// The place of the lists of an element, if there are any.
fn place_of(elements: &[ElementLists], weights: &[u64]) -> Option<usize>
    ensures { IfSome result (λ place. IsPlaceOf elements.now weights.now place) }
{
    for place in 0..elements.len() {
        if elements[place].are_of(weights) {
            return Some(place);
        }
    }
    None
}

/// The same, where the element gets a place if it has none.
fn place_or_new(elements: &mut Vec<ElementLists>, weights: &[u64]) -> Result<usize, AllocError>
    ensures { IfOk result (λ place. IsPlaceOf elements.new.items weights.now place) }
{
    if let Some(place) = place_of(elements, weights) {
        return Ok(place);
    }
    let alloc = *elements.allocator();
    elements.push(ElementLists::new(alloc, weights)?)?;
    Ok(elements.len() - 1)
}

impl ElementLists {
    /// No list of an element of these weights.
    fn new(alloc: Global, weights: &[u64]) -> Result<ElementLists, AllocError>
        ensures { IfOk result (λ e. e ≡ weights.now) }
    {
        Ok(ElementLists {
            weights: weights.to_vec(alloc)?,
            by_atoms: Vec::new(alloc),
        })
    }

    /// Whether the element has these weights.
    fn are_of(&self, weights: &[u64]) -> bool
        ensures { OnTrue result (self.now ≡ weights.now) }
    {
        self.weights.as_slice() == weights
    }

    /// Takes the list of so many atoms, if it is kept.
    fn take(&mut self, atoms: u32) -> Option<SubIsos>
        ensures element { IfSome result (λ l. l.element ≡ record { weights = self.old; atoms = atoms }) }
        ensures weights { self.new ≡ self.old }
    {
        let place = atoms as usize;
        if place < self.by_atoms.len() {
            self.by_atoms[place].take()
        } else {
            None
        }
    }

    /// How many places are missing for a list of so many atoms. None where such a list is kept.
    fn places_needed(&self, atoms: u32) -> Option<usize>
        ensures { IfSome result (λ places. places ≤ atoms + 1) }
    {
        let place = atoms as usize;
        if place >= self.by_atoms.len() {
            return Some(place + 1 - self.by_atoms.len());
        }
        if self.by_atoms[place].is_none() {
            Some(0)
        } else {
            None
        }
    }

    /// Keeps a list of the element.
    fn put(&mut self, list: SubIsos) -> Result<(), AllocError>
        requires { list.element.weights ≡ self.old }
        ensures { self.new ≡ self.old }
    {
        let place = list.atoms() as usize;
        add_places(&mut self.by_atoms, place + 1)?;
        self.by_atoms[place] = Some(list);
        Ok(())
    }
}

/// Makes a list of places as long as this, if it is shorter.
fn add_places(by_atoms: &mut Vec<Option<SubIsos>>, count: usize) -> Result<(), AllocError>
    ensures long { OnOk result (count ≤ length by_atoms.new.items) }
    ensures same { (k : ℕ) → slice_index_or by_atoms.new.items k None ≡ slice_index_or by_atoms.old.items k None }
{
    for _ in by_atoms.len()..count {
        by_atoms.push(None)?;
    }
    Ok(())
}
