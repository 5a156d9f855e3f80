//! Why a text is refused as an adduct, and what a note says of it.
ghost use Rattle.std.specs.Prelude.{◌≡◌, IfOk, string_bytes};
ghost use Rattle.adducts.specs.AdductFaults.{adduct_fault_words};
ghost use Rattle.adducts.specs.declared.fault.AdductFault.TheVariants.{Memory};

use std::alloc::{AllocError, AllocFailed, Global};
use thiserror::Error;

/// Why a text is refused as an adduct: the first of these causes. A place is the number of bytes before it.
#[derive(Clone, Copy, Debug, PartialEq, Eq, Error)]
pub enum AdductFault {
    /// The first byte at which no adduct can go on, or the length of a text that ends too early.
    #[error("bad text at {place}")]
    BadText { place: u64 },
    /// The first symbol that the table doesn't have, by its first byte.
    #[error("unknown symbol at {place}")]
    UnknownSymbol { place: u64 },
    /// More than 10,000 atoms of an element, or more than 20,000 in all, among the atoms that are added or
    /// among those that are lost.
    #[error("too many atoms")]
    TooManyAtoms,
    /// More than 20 elements, among the atoms that are added or among those that are lost.
    #[error("too many elements")]
    TooManyElements,
    /// The copies are 0 or more than 4.
    #[error("copies")]
    Copies,
    /// The charge is 0 or more than 30.
    #[error("charge")]
    Charge,
    /// Want of memory.
    #[error("out of memory")]
    Memory,
}

impl AdductFault {
    /// What a note says of the fault, behind `isoform: adduct: `. Want of memory has the words `memory`.
    pub fn words(&self, alloc: Global) -> Result<String, AllocError>
        ensures { IfOk result (λ words. string_bytes words ≡ adduct_fault_words self.now) }
    {
        match self {
            AdductFault::BadText { place } => format!(in alloc; "bad text at {place}"),
            AdductFault::UnknownSymbol { place } => format!(in alloc; "unknown symbol at {place}"),
            AdductFault::TooManyAtoms => String::from_str(alloc, "too many atoms"),
            AdductFault::TooManyElements => String::from_str(alloc, "too many elements"),
            AdductFault::Copies => String::from_str(alloc, "copies"),
            AdductFault::Charge => String::from_str(alloc, "charge"),
            AdductFault::Memory => String::from_str(alloc, "memory"),
        }
    }
}

impl From<AllocError> for AdductFault {
    ghost from_gives = { λ _ fault. fault ≡ Memory };

    fn from(_error: AllocError) -> AdductFault {
        AdductFault::Memory
    }
}

impl<T: Drop> From<AllocFailed<T>> for AdductFault {
    ghost from_gives = { λ _ fault. fault ≡ Memory };

    fn from(_failed: AllocFailed<T>) -> AdductFault {
        AdductFault::Memory
    }
}
