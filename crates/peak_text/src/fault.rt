//! Why the bytes of a peak file are refused, and what a note says of it.

ghost use Rattle.std.specs.Prelude.{◌≡◌, IfOk, string_bytes, alloc_error};
ghost use Rattle.peak_text.specs.PeakFaults.{peak_fault_words};
ghost use Rattle.peak_text.specs.declared.fault.PeakFault.TheVariants.{Memory};

use std::alloc::{AllocError, AllocFailed, Global};
use thiserror::Error;

/// Why the bytes of a peak file are refused: the first fault in the order of the records, and in a record the first of
/// the order below; `row` is the record's number, the header being record 1.
#[derive(Clone, Copy, Debug, PartialEq, Eq, Error)]
pub enum PeakFault {
    /// The first record isn't `mz,intensity`, or there is none.
    #[error("record {row}: the header isn't `mz,intensity`")]
    Header { row: u64 },
    /// The record hasn't two fields.
    #[error("record {row}: not two fields")]
    FieldCount { row: u64 },
    /// The m/z isn't a decimal of at most 12 decimals above 0 and at most 20,000 Da.
    #[error("record {row}: not an m/z above 0 and at most 20,000 Da")]
    Mz { row: u64 },
    /// The intensity isn't a decimal of at most 6 decimals and at most 10^12.
    #[error("record {row}: not an intensity of at most 10^12")]
    Intensity { row: u64 },
    /// The record has the 10,001st peak.
    #[error("record {row}: more than 10,000 peaks")]
    TooMany { row: u64 },
    /// Want of memory.
    #[error(transparent)]
    Memory(AllocError),
}

impl PeakFault {
    /// What a note says of the fault, behind `isoform: peaks: `. Want of memory has the words `memory`.
    pub fn words(&self, alloc: Global) -> Result<String, AllocError>
        ensures { IfOk result (λ words. string_bytes words ≡ peak_fault_words self.now) }
    {
        match self {
            PeakFault::Header { row } => format!(in alloc; "record {row}: header"),
            PeakFault::FieldCount { row } => format!(in alloc; "record {row}: field count"),
            PeakFault::Mz { row } => format!(in alloc; "record {row}: mz"),
            PeakFault::Intensity { row } => format!(in alloc; "record {row}: intensity"),
            PeakFault::TooMany { row } => format!(in alloc; "record {row}: too many"),
            PeakFault::Memory(_) => String::from_str(alloc, "memory"),
        }
    }
}

impl From<AllocError> for PeakFault {
    ghost from_gives = { λ e fault. fault ≡ Memory e };

    fn from(error: AllocError) -> PeakFault {
        PeakFault::Memory(error)
    }
}

impl<T: Drop> From<AllocFailed<T>> for PeakFault {
    ghost from_gives = { λ _ fault. fault ≡ Memory alloc_error };

    fn from(_failed: AllocFailed<T>) -> PeakFault {
        PeakFault::Memory(AllocError)
    }
}
