//! Why the bytes of a table file are refused, and what a note says of it.

ghost use Rattle.std.specs.Prelude.{◌≡◌, IfOk, string_bytes, alloc_error};
ghost use Rattle.element_table.specs.TableFaults.{table_fault_words};
ghost use Rattle.element_table.specs.declared.fault.TableFault.TheVariants.{Memory};

use crate::symbol::Symbol;
use std::alloc::{AllocError, AllocFailed, Global};
use thiserror::Error;

/// Why the bytes of a table file are refused: the first fault in the order of the records, and in a
/// record the first of the order below; `row` is the record's number, the header being record 1.
#[derive(Clone, Copy, Debug, PartialEq, Eq, Error)]
pub enum TableFault {
    /// The first record isn't `symbol,number,mass,abundance,valence` nor `symbol,number,mass,abundance12,valence`, or
    /// there is none.
    #[error("record {row}: the header isn't that of a table file")]
    Header { row: u64 },
    /// The record hasn't five fields.
    #[error("record {row}: not five fields")]
    FieldCount { row: u64 },
    /// The symbol isn't a capital letter and at most two small letters, nor `e-`.
    #[error("record {row}: not a symbol")]
    Symbol { row: u64 },
    /// The mass number isn't a whole number from 1 to 400, or the electron's isn't 0.
    #[error("record {row}: not a mass number, from 1 to 400, or 0 of the electron")]
    MassNumber { row: u64 },
    /// The mass isn't a decimal of at most 12 decimals from 0.5 to 400 Da, or the electron's isn't
    /// from 10^-12 to 0.001 Da.
    #[error("record {row}: not a mass from 0.5 to 400 Da, or to 0.001 Da of the electron")]
    Mass { row: u64 },
    /// The abundance isn't a decimal of at most 9 decimals, 12 in version 2, from 0 to 1, or the electron's isn't 0.
    #[error("record {row}: not an abundance from 0 to 1, or 0 of the electron")]
    Abundance { row: u64 },
    /// The valence isn't a whole number from 0 to 8, the electron's isn't 0, or it isn't the one of
    /// the element's first record.
    #[error("record {row}: not the valence of the element, from 0 to 8, or 0 of the electron")]
    Valence { row: u64 },
    /// The symbol and the mass number, or the electron, stood in an earlier record.
    #[error("record {row}: the isotope, or the electron, stood before")]
    Repeated { row: u64 },
    /// The record begins the 121st element.
    #[error("record {row}: more than 120 elements")]
    TooManyElements { row: u64 },
    /// The record has the 17th isotope of its element.
    #[error("record {row}: more than 16 isotopes of an element")]
    TooManyIsotopes { row: u64 },
    /// No record is the electron's.
    #[error("no record of the electron")]
    NoElectron,
    /// The abundances of this element, the first such one, are all 0.
    #[error("an element whose abundances are all 0: {symbol}")]
    NoWeight { symbol: Symbol },
    /// Want of memory.
    #[error(transparent)]
    Memory(AllocError),
}

impl TableFault {
    /// What a note says of the fault, behind `isoform: table: `. Want of memory has the words `memory`.
    pub fn words(&self, alloc: Global) -> Result<String, AllocError>
        ensures { IfOk result (λ words. string_bytes words ≡ table_fault_words self.now) }
    {
        match self {
            TableFault::Header { row } => format!(in alloc; "record {row}: header"),
            TableFault::FieldCount { row } => format!(in alloc; "record {row}: field count"),
            TableFault::Symbol { row } => format!(in alloc; "record {row}: symbol"),
            TableFault::MassNumber { row } => format!(in alloc; "record {row}: mass number"),
            TableFault::Mass { row } => format!(in alloc; "record {row}: mass"),
            TableFault::Abundance { row } => format!(in alloc; "record {row}: abundance"),
            TableFault::Valence { row } => format!(in alloc; "record {row}: valence"),
            TableFault::Repeated { row } => format!(in alloc; "record {row}: repeated"),
            TableFault::TooManyElements { row } => format!(in alloc;
                "record {row}: too many elements"
            ),
            TableFault::TooManyIsotopes { row } => format!(in alloc;
                "record {row}: too many isotopes"
            ),
            TableFault::NoElectron => String::from_str(alloc, "no electron"),
            TableFault::NoWeight { symbol } => format!(in alloc; "no weight: {symbol}"),
            TableFault::Memory(_) => String::from_str(alloc, "memory"),
        }
    }
}

impl From<AllocError> for TableFault {
    ghost from_gives = { λ e fault. fault ≡ Memory e };

    fn from(error: AllocError) -> TableFault {
        TableFault::Memory(error)
    }
}

impl<T: Drop> From<AllocFailed<T>> for TableFault {
    ghost from_gives = { λ _ fault. fault ≡ Memory alloc_error };

    fn from(_failed: AllocFailed<T>) -> TableFault {
        TableFault::Memory(AllocError)
    }
}
