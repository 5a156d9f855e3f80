//! The layers of a formula's isotopologues, one after another.

use crate::fault::LayerFault;
use crate::kept::GrownLists;
use crate::layer_end::{LayerEnd, MAX_MEMBERS};
use crate::lists::{modes_of, next_end, restart_lists, take_lists};
use isotopologue_sets::ElementAtoms;
use outside_ports::Steps;
use std::alloc::{AllocError, Global};
use std::marker::Model;
use std::sync::ledger::Ledger;
use sub_isotopologues::SubIsos;

/// The layers of the isotopologues of some elements. The first has those whose upper bound is above half that of the
/// likeliest isotopologue, and each next one those above half the threshold before, rounded down; the last threshold
/// is 0. They are seen as the elements and how many layers were given.
#[derive(Drop)]
pub struct Layers {
    pub(crate) lists: Vec<SubIsos>,
    pub(crate) modes: Vec<u64>,
    /// Scratch room, one place for each element, written anew for each layer.
    pub(crate) cutoffs: Vec<u64>,
    /// The upper bound of the isotopologue of all modes.
    pub(crate) mode_hi: u64,
    pub(crate) given: u32,
    /// What the layer given last has. Before the first one it is empty, of a threshold that nothing is above.
    pub(crate) last: LayerEnd,
}

impl Model for Layers {
    ghost use Rattle.std.specs.Prelude.{◌≡◌, length};
    ghost use Rattle.layered_envelope.specs.LayerLists.{elements_of, AreLayers, IsLast};
    ghost use Rattle.layered_envelope.specs.Layerings.{Layering};

    ghost Value = { Layering };

    ghost view = { λ l. record { elements = elements_of l.lists.items; given = l.given } };

    ghost invariant = { λ l. AreLayers l.lists.items l.modes.items l.mode_hi l.given
        × IsLast (elements_of l.lists.items) l.mode_hi l.given l.last
        × (length l.cutoffs.items ≡ length l.modes.items) };
}

impl Layers {
    ghost use Rattle.std.specs.Prelude.{◌≡◌, ◌+◌, ◌-◌, ◌<◌, ◌≤◌, IfOk, OnErr, length};
    ghost use Rattle.reader_answers.specs.Answers.{Gives, GivesAs};
    ghost use Rattle.isotopologue_sets.specs.Layers.{AreElements, threshold_at};
    ghost use Rattle.layered_envelope.specs.Layerings.{is_memory, end_within_limit, next_end, with_next};
    ghost use Rattle.layered_envelope.specs.Layerings.{most_steps, most_end_steps};

    /// The layers of up to 20 elements with at most 20,000 atoms together, before the first one. It fails only for want
    /// of memory.
    pub fn start(alloc: Global, elements: Vec<ElementAtoms>) -> Result<Layers, AllocError>
        requires { AreElements elements.items }
        ensures { IfOk result (λ l. l ≡ record { elements = elements.items; given = 0 }) }
    {
        Layers::start_with(alloc, &elements, &mut GrownLists::of_none(alloc))
    }

    /// The same as `start`, with lists that are kept from other formulas where there are such: no mode is found and no
    /// counts are grown twice.
    pub fn start_with(
        alloc: Global,
        elements: &[ElementAtoms],
        kept: &mut GrownLists,
    ) -> Result<Layers, AllocError>
        requires { AreElements elements.now }
        ensures { IfOk result (λ l. l ≡ record { elements = elements.entry.now; given = 0 }) }
    {
        let mut lists = take_lists(alloc, elements, kept)?;
        let modes = modes_of(alloc, &lists)?;
        let cutoffs = vec![in alloc; 0; modes.len()]?;
        let mode_hi = restart_lists(&mut lists, &modes)?;
        Ok(Layers {
            lists,
            modes,
            cutoffs,
            mode_hi,
            given: 0,
            last: LayerEnd::empty(mode_hi),
        })
    }

    /// Gives the lists back to be kept for other formulas. What there is no memory or no room for is dropped.
    pub fn give_back(self, kept: &mut GrownLists) {
        for list in self.lists {
            kept.keep(list);
        }
    }

    /// Gives the next layer: its threshold, how many members it has, and what their lower and their upper bounds total.
    /// None exactly after the layer of threshold 0.
    ///
    /// `TooMany` exactly where the next layer has more than 1,048,576 members, and `Memory` for want of memory. The
    /// layers then stand where they stood.
    pub fn next_layer<L: Ledger>(
        &mut self,
        steps: &mut Steps<L>,
    ) -> Result<Option<LayerEnd>, LayerFault>
        ensures gives { Gives is_memory result (next_end self.old) }
        ensures given { IfOk result (λ end. self.new ≡ with_next self.old end) }
        ensures unchanged { OnErr result (self.new ≡ self.old) }
        ensures steps { steps.new ≤ steps.old + most_end_steps (length self.old.elements) result }
    {
        if self.given > 0 && self.mode_hi >> self.given == 0 {
            return Ok(None);
        }
        let threshold = self.mode_hi >> (self.given + 1);
        let end = next_end(
            &mut self.lists,
            &self.modes,
            &mut self.cutoffs,
            threshold,
            self.last,
            steps,
        )?;
        self.given += 1;
        self.last = end;
        Ok(Some(end))
    }
    /// The layers from a later one on, and what that one has: those between are passed over. The first layer has the
    /// number 1, and the 60th has the threshold 0.
    ///
    /// `TooMany` exactly where this layer has more than 1,048,576 members, and `Memory` for want of memory.
    pub fn skip_to<L: Ledger>(
        self,
        number: u32,
        steps: &mut Steps<L>,
    ) -> Result<(Layers, LayerEnd), LayerFault>
        requires later { self.given < number }
        requires few { number ≤ 60 }
        ensures gives { GivesAs (λ found. found.1) is_memory result
            (end_within_limit self.elements (threshold_at self.elements (number - 1))) }
        ensures given { IfOk result (λ found. found.0 ≡ record { elements = self.elements; given = number }) }
        ensures steps { IfOk result (λ found.
            steps.new ≤ steps.old + most_steps (length self.elements) found.1.members) }
        ensures steps_at_limit { OnErr result
            (steps.new ≤ steps.old + most_steps (length self.elements) (MAX_MEMBERS + 1)) }
    {
        let mut layers = self;
        let end = next_end(
            &mut layers.lists,
            &layers.modes,
            &mut layers.cutoffs,
            layers.mode_hi >> number,
            layers.last,
            steps,
        )?;
        layers.given = number;
        layers.last = end;
        Ok((layers, end))
    }

    /// The threshold of the layer of a number, the first being 1.
    pub fn threshold_of(&self, number: u32) -> u64
        requires some { 1 ≤ number }
        requires few { number ≤ 60 }
        ensures { result ≡ threshold_at self.now.elements (number - 1) }
    {
        self.mode_hi >> number
    }

    /// How many layers were given.
    pub fn given(&self) -> u32
        ensures value { result ≡ self.now.given }
        ensures few { result ≤ 60 }
    {
        self.given
    }
}
