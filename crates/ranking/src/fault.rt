//! Why the candidates of a peak aren't ranked to their end.

use formula_text::Formula;
use std::alloc::AllocError;
use thiserror::Error;

/// Why the candidates of a peak aren't ranked to their end.
#[derive(Debug, Drop, Error)]
pub enum RankFault {
    /// The peak has more than 1,048,576 candidates.
    #[error("peak {peak} has more than 1,048,576 candidates")]
    TooMany {
        /// The peak's number, from 1 on.
        peak: u64,
    },
    /// The ion of a candidate has a layer of more than 1,048,576 members, and no layer before it has the coverage.
    #[error("an ion of peak {peak} has a layer of more than 1,048,576 members")]
    Layer {
        /// The peak's number, from 1 on.
        peak: u64,
        /// The ion.
        formula: Formula,
    },
    /// No memory was left.
    #[error("out of memory")]
    Memory,
}

ghost use Rattle.std.specs.Prelude.{◌≡◌};
ghost use Rattle.ranking.specs.declared.fault.RankFault.TheVariants.{Memory};

impl From<AllocError> for RankFault {
    ghost from_gives = { λ _ fault. fault ≡ Memory };

    fn from(_error: AllocError) -> RankFault {
        RankFault::Memory
    }
}
