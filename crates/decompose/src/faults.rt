//! Why an enumeration does not go on.
ghost use Rattle.std.specs.Prelude.{◌≡◌};
ghost use Rattle.decompose.specs.declared.faults.ResumeFault.TheVariants.{Memory};

use std::alloc::AllocError;
use thiserror::Error;

/// Why an enumeration does not go on after a list of counts.
#[derive(Clone, Copy, Debug, PartialEq, Eq, Error)]
pub enum ResumeFault {
    /// The list has another number of counts, or a count outside its limits.
    #[error("the counts are not within the limits")]
    NotInBox,
    /// No memory was left.
    #[error("out of memory")]
    Memory,
}

impl From<AllocError> for ResumeFault {
    ghost from_gives = { λ _ fault. fault ≡ Memory };

    fn from(_error: AllocError) -> ResumeFault {
        ResumeFault::Memory
    }
}
