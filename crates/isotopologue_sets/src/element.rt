//! One element of a formula.

use multinomial_bounds::MAX_ATOMS;
use std::alloc::{AllocError, Global};
use std::marker::Model;

/// One element of a formula: the weights of its isotopes that occur, by rising mass number, in any one
/// unit, and how many atoms of it the formula has.
#[derive(Drop)]
pub struct ElementAtoms {
    weights: Vec<u64>,
    atoms: u32,
}

impl Model for ElementAtoms {
    ghost use Rattle.std.specs.Prelude.{◌≤◌};
    ghost use Rattle.multinomial_bounds.specs.Weight.{IsWeights};
    ghost use Rattle.multinomial_bounds.specs.Isotopologue.{Element};
    ghost use Rattle.isotopologue_sets.specs.Layers.{max_atoms_of_one};

    ghost Value = { Element };

    ghost view = { λ e. record { weights = e.weights.items; atoms = e.atoms } };

    ghost invariant = { λ e. IsWeights e.weights.items × (e.atoms ≤ max_atoms_of_one) };
}

impl ElementAtoms {
    ghost use Rattle.std.specs.Prelude.{◌≡◌, ◌≤◌, IfOk};
    ghost use Rattle.multinomial_bounds.specs.Weight.{IsWeights};

    /// An element of 1 to 16 isotopes, each of a weight from 1 to 10^12, and at most [`MAX_ATOMS`] atoms.
    pub fn of(alloc: Global, weights: &[u64], atoms: u32) -> Result<ElementAtoms, AllocError>
        requires weights_in_range { IsWeights weights.now }
        requires few_atoms { atoms ≤ MAX_ATOMS }
        ensures { IfOk result (λ e. e ≡ record { weights = weights.now; atoms = atoms }) }
    {
        Ok(ElementAtoms::from_weights(weights.to_vec(alloc)?, atoms))
    }

    /// The same of weights that are given away.
    pub fn from_weights(weights: Vec<u64>, atoms: u32) -> ElementAtoms
        requires weights_in_range { IsWeights weights.items }
        requires few_atoms { atoms ≤ MAX_ATOMS }
        ensures { result ≡ record { weights = weights.items; atoms = atoms } }
    {
        ElementAtoms { weights, atoms }
    }

    /// The weights of the isotopes.
    pub fn weights(&self) -> &[u64]
        ensures value { result.now ≡ self.now.weights }
        ensures weights_in_range { IsWeights self.now.weights }
    {
        &self.weights
    }

    /// How many atoms there are.
    pub fn atoms(&self) -> u32
        ensures value { result ≡ self.now.atoms }
        ensures few { result ≤ MAX_ATOMS }
    {
        self.atoms
    }
}
