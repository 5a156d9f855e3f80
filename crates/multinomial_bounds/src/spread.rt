//! The likeliest counts of an element's isotopes.

use crate::enclosure::Enclosure;
use std::marker::Model;

/// The mode of an element's atoms: the counts of its isotopes, by rising mass number. It also keeps
/// what it was found with, so that enclosures of other counts can begin at it.
#[derive(Drop)]
pub struct Spread {
    pub(crate) counts: Vec<u32>,
    pub(crate) weights: Vec<u64>,
    pub(crate) enclosure: Enclosure,
}

impl Model for Spread {
    ghost use Rattle.std.specs.Prelude.{◌≡◌, List, ℕ, sum};
    ghost use Rattle.multinomial_bounds.specs.Bounds.{floor_of, ceiling_of};
    ghost use Rattle.multinomial_bounds.specs.Mode.{mode_bound};

    ghost Value = { List ℕ };

    ghost view = { λ s. s.counts.items };

    ghost invariant = { λ s.
        (s.enclosure.lo ≡ mode_bound floor_of s.weights.items (sum s.counts.items))
        × (s.enclosure.hi ≡ mode_bound ceiling_of s.weights.items (sum s.counts.items)) };
}

impl Spread {
    ghost use Rattle.std.specs.Prelude.{◌≡◌};

    /// The counts of the isotopes.
    pub fn counts(&self) -> &[u32]
        ensures { result.now ≡ self.now }
    {
        &self.counts
    }
}
