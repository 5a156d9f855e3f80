//! Why there is no layer, and no walk over its members.
ghost use Rattle.std.specs.Prelude.{◌≡◌};
ghost use Rattle.layered_envelope.specs.declared.fault.LayerFault.TheVariants.{Memory as LayerMemory};
ghost use Rattle.layered_envelope.specs.declared.fault.MemberFault.TheVariants.{Memory as MemberMemory};

use std::alloc::AllocError;
use thiserror::Error;

/// Why there is no next layer.
#[derive(Clone, Copy, Debug, PartialEq, Eq, Error)]
pub enum LayerFault {
    /// The layer of this threshold, in units of 10^-18, has more than 1,048,576 members.
    #[error("the layer of threshold {threshold} has more than 1,048,576 members")]
    TooMany {
        /// The threshold of the layer.
        threshold: u64,
    },
    /// No memory was left.
    #[error("out of memory")]
    Memory,
}

impl From<AllocError> for LayerFault {
    ghost from_gives = { λ _ fault. fault ≡ LayerMemory };

    fn from(_error: AllocError) -> LayerFault {
        LayerFault::Memory
    }
}

/// Why a walk over the members of a layer does not go on.
#[derive(Clone, Copy, Debug, PartialEq, Eq, Error)]
pub enum MemberFault {
    /// The places are not those of a member of the layer.
    #[error("the places are not those of a member of the layer")]
    NotInLayer,
    /// No memory was left.
    #[error("out of memory")]
    Memory,
}

impl From<AllocError> for MemberFault {
    ghost from_gives = { λ _ fault. fault ≡ MemberMemory };

    fn from(_error: AllocError) -> MemberFault {
        MemberFault::Memory
    }
}
