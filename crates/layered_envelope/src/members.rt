//! The members of a layer, one after another.

use crate::fault::MemberFault;
use crate::layers::Layers;
use crate::lists::first_choices;
use crate::member::Member;
use crate::places::{are_places, choices_at, product_at};
use crate::walk::{Choice, advance, before_of, counts_of};
use multinomial_bounds::Enclosure;
use outside_ports::Steps;
use std::alloc::AllocError;
use std::marker::Model;
use std::sync::ledger::Ledger;
use sub_isotopologues::SubIsos;

/// A walk over the members of the layer given last, in lexicographic order of their places. It is seen as the elements,
/// the threshold of the layer and the places of the member given last.
#[derive(Drop)]
pub struct Members<'t> {
    lists: &'t [SubIsos],
    modes: &'t [u64],
    threshold: u64,
    choices: Vec<Choice>,
    has_given: bool,
}

impl<'t> Model for Members<'t> {
    ghost use Rattle.layered_envelope.specs.LayerWalks.{LayerWalk, AreMembers, seen_walk};

    ghost Value = { LayerWalk };

    ghost view = { λ m. seen_walk m.lists.now m.threshold m.choices.items m.has_given };

    ghost invariant = { λ m. AreMembers m.lists.now m.modes.now m.threshold m.choices.items m.has_given };
}

ghost use Rattle.std.specs.Prelude.{◌≡◌, ◌<◌, ◌↔◌, IsTrue, length};
ghost use Rattle.layered_envelope.specs.ChosenPlaces.{ArePlaces};
ghost use Rattle.layered_envelope.specs.Walks.{his_of, places_of};
ghost use Rattle.layered_envelope.specs.CountedWalks.{hi_at};

/// Writes the places of a choice.
fn write_places(choices: &[Choice], places: &mut [usize])
    requires { length places.old ≡ length choices.now }
    ensures { places.new ≡ places_of choices.now }
{
    for element in 0..choices.len() {
        places[element] = choices[element].place;
    }
}

/// Whether these are places of the lists whose product is above a threshold.
fn is_member(lists: &[SubIsos], threshold: u64, places: &[usize]) -> bool
    ensures { IsTrue result ↔ (ArePlaces (his_of lists.now) places.now × (threshold < hi_at lists.now places.now)) }
{
    are_places(lists, places) && product_at(lists, places).hi > threshold
}

impl Layers {
    ghost use Rattle.std.specs.Prelude.{◌≡◌, ◌≤◌, ◌<◌, Contains, IfOk, None, length, map, slice_index_or};
    ghost use Rattle.std.specs.List.Sorted.{IsPermutation};
    ghost use Rattle.isotopologue_sets.specs.Layers.{lo_of, hi_of, layer};
    ghost use Rattle.layered_envelope.specs.PlacedLayers.{counts_at};
    ghost use Rattle.layered_envelope.specs.Layerings.{last_threshold, last_places};
    ghost use Rattle.layered_envelope.specs.LayerWalks.{walk_of, left};

    /// A walk over the members of the layer given last, from the first one on. It fails only for want of memory.
    pub fn members(&self) -> Result<Members<'_>, AllocError>
        requires { 1 ≤ self.now.given }
        ensures start { IfOk result (λ m. m ≡ walk_of self.now None) }
        ensures all_left { IfOk result (λ m. left m ≡ last_places self.now) }

        // What the places are: those of the members of the layer, each once.
        ensures members { IsPermutation
            (layer self.now.elements (last_threshold self.now))
            (map (counts_at self.now.elements) (last_places self.now)) }
    {
        let alloc = *self.lists.allocator();
        let lists = self.lists.as_slice();
        let modes = self.modes.as_slice();
        let threshold = self.mode_hi >> self.given;
        let choices = first_choices(alloc, lists)?;
        Ok(Members {
            lists,
            modes,
            threshold,
            choices,
            has_given: false,
        })
    }

    /// The counts of an element in a member of the layer given last.
    pub fn spread(&self, member: &Member, element: usize) -> &[u32]
        requires given { 1 ≤ self.now.given }
        requires member { Contains (last_places self.now) member.now }
        requires element { element < length self.now.elements }
        ensures { result.now ≡ slice_index_or (counts_at self.now.elements member.now) element result.now }
    {
        counts_of(self.lists.as_slice(), element, member.places()[element])
    }

    /// The enclosure of the probability of a member of the layer given last, in units of 10^-18.
    pub fn enclosure(&self, member: &Member) -> Enclosure
        requires given { 1 ≤ self.now.given }
        requires member { Contains (last_places self.now) member.now }
        ensures lo { result.lo ≡ lo_of self.now.elements (counts_at self.now.elements member.now) }
        ensures hi { result.hi ≡ hi_of self.now.elements (counts_at self.now.elements member.now) }
    {
        product_at(self.lists.as_slice(), member.places())
    }
}

impl<'t> Members<'t> {
    ghost use Rattle.std.specs.Prelude.{◌≡◌, ◌∷◌, ◌↔◌, ◌+◌, ◌≤◌, [], Contains, IfOk, IfSome, IsErrOf, IsSome, IsTrue, OnOk, Some, length, not};
    ghost use Rattle.std.specs.Bool.{OnTrue, OnFalse};
    ghost use Rattle.isotopologue_sets.specs.Layers.{lo_of, hi_of};
    ghost use Rattle.layered_envelope.specs.PlacedLayers.{counts_at, layer_places};
    ghost use Rattle.layered_envelope.specs.Layerings.{last_places};
    ghost use Rattle.layered_envelope.specs.LayerWalks.{walk_of, after_last, left};

    /// A walk over those members of the layer given last that come after one of them.
    ///
    /// `NotInLayer` exactly where `after` isn't a member of the layer, which is found without memory; `Memory` for want
    /// of memory.
    pub fn resume(layers: &'t Layers, after: &Member) -> Result<Members<'t>, MemberFault>
        requires { 1 ≤ layers.now.given }
        ensures resumed { IfOk result (λ m. m ≡ walk_of layers.now (Some after.now)) }
        ensures rest_left { IfOk result (λ m. left m ≡ after_last (last_places layers.now) (Some after.now)) }
        ensures in_layer { OnOk result (Contains (last_places layers.now) after.now) }
        ensures not_in_layer { IsErrOf result MemberFault.NotInLayer ↔ (¬ Contains (last_places layers.now) after.now) }
    {
        let lists = layers.lists.as_slice();
        let modes = layers.modes.as_slice();
        let threshold = layers.mode_hi >> layers.given;
        if !is_member(lists, threshold, after.places()) {
            return Err(MemberFault::NotInLayer);
        }
        let alloc = *layers.lists.allocator();
        let choices = choices_at(alloc, lists, after.places())?;
        Ok(Members {
            lists,
            modes,
            threshold,
            choices,
            has_given: true,
        })
    }

    /// The member given last, with which `resume` goes on: after `resume` it is the one handed in until another is
    /// given. None where none was given since the walk began.
    pub fn token(&self) -> Result<Option<Member>, AllocError>
        ensures { IfOk result (λ token. token ≡ self.now.last) }
    {
        if !self.has_given {
            return Ok(None);
        }
        let mut places = vec![in *self.choices.allocator(); 0; self.choices.len()]?;
        write_places(&self.choices, &mut places);
        Ok(Some(Member { places }))
    }

    /// Gives the next member: writes its places into `out`, which has one for each element. False exactly at the end,
    /// and `out` is then as before. Takes no memory.
    pub fn next_into<L: Ledger>(&mut self, out: &mut Member, steps: &mut Steps<L>) -> bool
        requires { length out.old ≡ length self.old.elements }
        ensures next { OnTrue result (left self.old ≡ out.new ∷ left self.new) }
        ensures end { IsTrue (not result) ↔ (left self.old ≡ []) }
        ensures given { OnTrue result (self.new ≡ record self.old { last = Some out.new }) }
        ensures member { OnTrue result (Contains (layer_places self.old.elements self.old.threshold) out.new) }
        ensures unchanged { OnFalse result (self.new ≡ self.old) }
        ensures out_unchanged { OnFalse result (out.new ≡ out.old) }
        ensures length { length out.new ≡ length out.old }
        ensures steps { steps.new ≤ steps.old + length self.old.elements }
    {
        if !self.step_on(steps) {
            return false;
        }
        write_places(&self.choices, &mut out.places);
        true
    }

    /// Steps on to the next member; false exactly at the end.
    fn step_on<L: Ledger>(&mut self, steps: &mut Steps<L>) -> bool
        ensures next { OnTrue result (IfSome self.new.last (λ places. left self.old ≡ places ∷ left self.new)) }
        ensures given { OnTrue result (IsSome self.new.last) }
        ensures member { OnTrue result (IfSome self.new.last
            (Contains (layer_places self.old.elements self.old.threshold))) }
        ensures end { OnFalse result (left self.old ≡ []) }
        ensures same { self.new ≡ record self.old { last = self.new.last } }
        ensures unchanged { OnFalse result (self.new ≡ self.old) }
        ensures steps { steps.new ≤ steps.old + length self.old.elements }
    {
        if !self.has_given {
            self.has_given = true;
            return true;
        }
        if !advance(
            self.lists,
            self.modes,
            self.threshold,
            &mut self.choices,
            steps,
        ) {
            return false;
        }
        true
    }

    /// The enclosure of the probability of the member given last, in units of 10^-18, which the walk has at hand.
    pub fn enclosure(&self) -> Enclosure
        requires { IsSome self.now.last }
        ensures lo { IfSome self.now.last (λ places.
            result.lo ≡ lo_of self.now.elements (counts_at self.now.elements places)) }
        ensures hi { IfSome self.now.last (λ places.
            result.hi ≡ hi_of self.now.elements (counts_at self.now.elements places)) }
    {
        before_of(self.lists, &self.choices, self.choices.len())
    }
}
