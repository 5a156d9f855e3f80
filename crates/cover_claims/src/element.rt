//! An element of a claim, with what enclosures of its counts begin at.

use isotopologue_sets::ElementAtoms;
use multinomial_bounds::{Enclosure, Spread, enclose, mode_of};
use std::alloc::{AllocError, Global};
use std::marker::Model;

/// An element with the mode of its atoms.
#[derive(Drop)]
pub(crate) struct ClaimElement {
    atoms: ElementAtoms,
    mode: Spread,
}

impl Model for ClaimElement {
    ghost use Rattle.std.specs.Prelude.{◌≡◌, ◌≤◌};
    ghost use Rattle.multinomial_bounds.specs.Mode.{mode_of_atoms};
    ghost use Rattle.multinomial_bounds.specs.Isotopologue.{Element};
    ghost use Rattle.isotopologue_sets.specs.Layers.{max_atoms_of_one};

    ghost Value = { Element };

    ghost view = { λ e. e.atoms };

    ghost invariant = { λ e. (e.mode ≡ mode_of_atoms e.atoms.weights e.atoms.atoms) × (e.atoms.atoms ≤ max_atoms_of_one) };
}

impl ClaimElement {
    ghost use Rattle.std.specs.Prelude.{◌≡◌, ◌≤◌, IfOk, length};
    ghost use Rattle.multinomial_bounds.specs.Weight.{IsCounts};
    ghost use Rattle.multinomial_bounds.specs.Bounds.{floor_of, ceiling_of};
    ghost use Rattle.multinomial_bounds.specs.Mode.{mode_of_atoms};
    ghost use Rattle.multinomial_bounds.specs.Path.{bound_of};

    pub(crate) fn of(alloc: Global, atoms: ElementAtoms) -> Result<ClaimElement, AllocError>
        ensures { IfOk result (λ e. e ≡ atoms) }
    {
        let (mode, _) = mode_of(alloc, atoms.weights(), atoms.atoms())?;
        Ok(ClaimElement { atoms, mode })
    }

    /// How many isotopes it has.
    pub(crate) fn isotopes(&self) -> usize
        ensures number { result ≡ length self.now.weights }
        ensures few { result ≤ 16 }
    {
        self.atoms.weights().len()
    }

    /// The counts of the mode.
    pub(crate) fn mode(&self) -> &[u32]
        ensures { result.now ≡ mode_of_atoms self.now.weights self.now.atoms }
    {
        self.mode.counts()
    }

    /// The enclosure of counts of its isotopes.
    pub(crate) fn enclosure(&self, alloc: Global, counts: &[u32]) -> Result<Enclosure, AllocError>
        requires { IsCounts self.now.weights self.now.atoms counts.now }
        ensures lo { IfOk result (λ e. e.lo ≡ bound_of floor_of self.now.weights counts.now) }
        ensures hi { IfOk result (λ e. e.hi ≡ bound_of ceiling_of self.now.weights counts.now) }
    {
        enclose(alloc, self.atoms.weights(), &self.mode, counts)
    }
}
