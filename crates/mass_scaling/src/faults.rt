//! Why an alphabet has no tables.
ghost use Rattle.std.specs.Prelude.{◌≡◌};
ghost use Rattle.mass_scaling.specs.declared.faults.ScaleFault.TheVariants.{Memory};

use std::alloc::AllocError;
use thiserror::Error;

/// Why an alphabet has no tables.
#[derive(Clone, Copy, Debug, PartialEq, Eq, Error)]
pub enum ScaleFault {
    /// The last mass, which is the least, is above 400 Da.
    #[error("the lightest symbol is heavier than 400 Da")]
    BaseTooHeavy,
    /// No memory was left.
    #[error("out of memory")]
    Memory,
}

impl From<AllocError> for ScaleFault {
    ghost from_gives = { λ _ fault. fault ≡ Memory };

    fn from(_error: AllocError) -> ScaleFault {
        ScaleFault::Memory
    }
}
