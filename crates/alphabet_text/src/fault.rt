//! Why a text is refused as an alphabet, and what a note says of it.
ghost use Rattle.std.specs.Prelude.{◌≡◌, IfOk, string_bytes};
ghost use Rattle.alphabet_text.specs.AlphabetFaults.{alphabet_fault_words};
ghost use Rattle.alphabet_text.specs.declared.fault.AlphabetFault.TheVariants.{Memory};

use std::alloc::{AllocError, AllocFailed, Global};
use thiserror::Error;

/// Why a text is refused as an alphabet: the first of these causes; of the three that an entry may have, the
/// first one by entries and in an entry in this order. A place is the number of bytes before it.
#[derive(Clone, Copy, Debug, PartialEq, Eq, Error)]
pub enum AlphabetFault {
    /// The first byte at which no alphabet can go on, or the length of a text that ends too early; in a text of
    /// the grammar the first digit of the first limit above 10,000.
    #[error("bad text at {place}")]
    BadText { place: u64 },
    /// The table hasn't the element or the isotope of the entry at this place.
    #[error("unknown symbol at {place}")]
    UnknownSymbol { place: u64 },
    /// The item of the entry at this place stood before.
    #[error("repeated at {place}")]
    Repeated { place: u64 },
    /// The lower limit of the entry at this place is above the upper one.
    #[error("empty range at {place}")]
    EmptyRange { place: u64 },
    /// More than 20 entries.
    #[error("more than 20 entries")]
    TooMany,
    /// Want of memory.
    #[error("out of memory")]
    Memory,
}

impl AlphabetFault {
    /// What a note says of the fault, behind `isoform: alphabet: `. Want of memory has the words `memory`.
    pub fn words(&self, alloc: Global) -> Result<String, AllocError>
        ensures { IfOk result (λ words. string_bytes words ≡ alphabet_fault_words self.now) }
    {
        match self {
            AlphabetFault::BadText { place } => format!(in alloc; "bad text at {place}"),
            AlphabetFault::UnknownSymbol { place } => format!(in alloc;
                "unknown symbol at {place}"
            ),
            AlphabetFault::Repeated { place } => format!(in alloc; "repeated at {place}"),
            AlphabetFault::EmptyRange { place } => format!(in alloc; "empty range at {place}"),
            AlphabetFault::TooMany => String::from_str(alloc, "too many"),
            AlphabetFault::Memory => String::from_str(alloc, "memory"),
        }
    }
}

impl From<AllocError> for AlphabetFault {
    ghost from_gives = { λ _ fault. fault ≡ Memory };

    fn from(_error: AllocError) -> AlphabetFault {
        AlphabetFault::Memory
    }
}

impl<T: Drop> From<AllocFailed<T>> for AlphabetFault {
    ghost from_gives = { λ _ fault. fault ≡ Memory };

    fn from(_failed: AllocFailed<T>) -> AlphabetFault {
        AlphabetFault::Memory
    }
}
