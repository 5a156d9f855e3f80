//! Counts of atoms, one for each symbol of an alphabet.
ghost use Rattle.std.specs.Prelude.{◌≡◌, IfOk, replicate};

use std::alloc::{AllocError, Global};
use std::marker::Model;

/// One count of atoms for each symbol of an alphabet, in the alphabet's order. It is seen as the
/// list of its counts.
#[derive(Debug, Drop)]
pub struct Counts {
    pub(crate) counts: Vec<u32>,
}

impl Model for Counts {
    ghost use Rattle.std.specs.Prelude.{ℕ, List};

    ghost Value = { List ℕ };

    ghost view = { λ c. c.counts.items };
}

impl Counts {
    /// `n` counts of 0.
    pub fn zero(alloc: Global, n: usize) -> Result<Counts, AllocError>
        ensures { IfOk result (λ c. c ≡ replicate n 0) }
    {
        let counts = vec![in alloc; 0; n]?;
        Ok(Counts { counts })
    }

    /// A copy of these counts.
    pub fn of(alloc: Global, counts: &[u32]) -> Result<Counts, AllocError>
        ensures { IfOk result (λ c. c ≡ counts.now) }
    {
        let counts = counts.to_vec(alloc)?;
        Ok(Counts { counts })
    }

    /// The counts.
    pub fn counts(&self) -> &[u32]
        ensures { result.now ≡ self.now }
    {
        self.counts.as_slice()
    }
}
