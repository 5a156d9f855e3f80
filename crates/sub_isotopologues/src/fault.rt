//! Why there is no list.
ghost use Rattle.std.specs.Prelude.{◌≡◌};
ghost use Rattle.sub_isotopologues.specs.declared.fault.SubFault.TheVariants.{Memory};

use std::alloc::AllocError;
use thiserror::Error;

/// Why a list of subisotopologues isn't made longer or resumed.
#[derive(Clone, Copy, Debug, PartialEq, Eq, Error)]
pub enum SubFault {
    /// The list would have more than 1,048,576 items.
    #[error("the list would have more than 1,048,576 items")]
    TooMany,
    /// The token is greater than the number of items.
    #[error("the token is greater than the number of items")]
    NotInList,
    /// No memory was left.
    #[error("out of memory")]
    Memory,
}

impl From<AllocError> for SubFault {
    ghost from_gives = { λ _ fault. fault ≡ Memory };

    fn from(_error: AllocError) -> SubFault {
        SubFault::Memory
    }
}
