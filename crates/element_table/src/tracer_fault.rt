//! Why the bytes of a tracer file are refused, and what a note says of it.

ghost use Rattle.std.specs.Prelude.{◌≡◌, IfOk, string_bytes, alloc_error};
ghost use Rattle.element_table.specs.TracerFaults.{tracer_fault_words};
ghost use Rattle.element_table.specs.declared.tracer_fault.TracerFault.TheVariants.{Memory};

use crate::symbol::Symbol;
use std::alloc::{AllocError, AllocFailed, Global};
use thiserror::Error;

/// Why the bytes of a tracer file are refused: the first fault in the order of the records, and in a
/// record the first of the order below; `row` is the record's number, the header being record 1.
#[derive(Clone, Copy, Debug, PartialEq, Eq, Error)]
pub enum TracerFault {
    /// The first record isn't `symbol,number,abundance12`, or there is none.
    #[error("record {row}: the header isn't `symbol,number,abundance12`")]
    Header { row: u64 },
    /// The record hasn't three fields.
    #[error("record {row}: not three fields")]
    FieldCount { row: u64 },
    /// The symbol isn't that of an element of the table.
    #[error("record {row}: not an element of the table")]
    Symbol { row: u64 },
    /// The mass number isn't that of an isotope of the element.
    #[error("record {row}: not an isotope of the element")]
    MassNumber { row: u64 },
    /// The abundance isn't a decimal of at most 12 decimals from 0 to 1.
    #[error("record {row}: not an abundance from 0 to 1")]
    Abundance { row: u64 },
    /// The symbol and the mass number stood in an earlier record.
    #[error("record {row}: the isotope stood before")]
    Repeated { row: u64 },
    /// The tracer names this element, the first such one of the table, and gives each isotope of it the weight 0.
    #[error("an element whose abundances are all 0: {symbol}")]
    NoWeight { symbol: Symbol },
    /// Want of memory.
    #[error(transparent)]
    Memory(AllocError),
}

impl TracerFault {
    /// What a note says of the fault, behind `isoform: tracer: `. Want of memory has the words `memory`.
    pub fn words(&self, alloc: Global) -> Result<String, AllocError>
        ensures { IfOk result (λ words. string_bytes words ≡ tracer_fault_words self.now) }
    {
        match self {
            TracerFault::Header { row } => format!(in alloc; "record {row}: header"),
            TracerFault::FieldCount { row } => format!(in alloc; "record {row}: field count"),
            TracerFault::Symbol { row } => format!(in alloc; "record {row}: symbol"),
            TracerFault::MassNumber { row } => format!(in alloc; "record {row}: mass number"),
            TracerFault::Abundance { row } => format!(in alloc; "record {row}: abundance"),
            TracerFault::Repeated { row } => format!(in alloc; "record {row}: repeated"),
            TracerFault::NoWeight { symbol } => format!(in alloc; "no weight: {symbol}"),
            TracerFault::Memory(_) => String::from_str(alloc, "memory"),
        }
    }
}

impl From<AllocError> for TracerFault {
    ghost from_gives = { λ e fault. fault ≡ Memory e };

    fn from(error: AllocError) -> TracerFault {
        TracerFault::Memory(error)
    }
}

impl<T: Drop> From<AllocFailed<T>> for TracerFault {
    ghost from_gives = { λ _ fault. fault ≡ Memory alloc_error };

    fn from(_failed: AllocFailed<T>) -> TracerFault {
        TracerFault::Memory(AllocError)
    }
}
