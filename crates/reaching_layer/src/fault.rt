//! Why there is no reaching layer.
ghost use Rattle.std.specs.Prelude.{◌≡◌};
ghost use Rattle.reaching_layer.specs.declared.fault.CoverFault.TheVariants.{Memory};
ghost use Rattle.reaching_layer.specs.LayerAnswers.{of_layer_fault};

use layered_envelope::LayerFault;
use std::alloc::AllocError;
use thiserror::Error;

/// Why elements have no reaching layer.
#[derive(Clone, Copy, Debug, PartialEq, Eq, Error)]
pub enum CoverFault {
    /// The layer of this threshold, in units of 10^-18, has more than 1,048,576 members, and none before it has the
    /// coverage.
    #[error("the layer of threshold {threshold} has more than 1,048,576 members")]
    TooMany {
        /// The threshold of the layer.
        threshold: u64,
    },
    /// No memory was left.
    #[error("out of memory")]
    Memory,
}

impl From<AllocError> for CoverFault {
    ghost from_gives = { λ _ fault. fault ≡ Memory };

    fn from(_error: AllocError) -> CoverFault {
        CoverFault::Memory
    }
}

impl From<LayerFault> for CoverFault {
    ghost from_gives = { λ fault cover. cover ≡ of_layer_fault fault };

    fn from(fault: LayerFault) -> CoverFault {
        match fault {
            LayerFault::TooMany { threshold } => CoverFault::TooMany { threshold },
            LayerFault::Memory => CoverFault::Memory,
        }
    }
}
