//! Why counts are no formula, and why a text isn't that of one.
ghost use Rattle.std.specs.Prelude.{◌≡◌, IfOk, string_bytes};
ghost use Rattle.formula_text.specs.FormulaFaults.{formula_fault_words};

use std::alloc::{AllocError, AllocFailed, Global};
use thiserror::Error;

/// Why counts aren't within the limits of a formula: the first of these causes.
#[derive(Clone, Copy, Debug, PartialEq, Eq, Error)]
pub enum PartsFault {
    /// More than 10,000 atoms of an item, or more than 20,000 in all.
    #[error("more than 10,000 atoms of a symbol or 20,000 in all")]
    TooManyAtoms,
    /// More than 20 items have an atom.
    #[error("more than 20 symbols")]
    TooManyElements,
    /// Want of memory.
    #[error(transparent)]
    Memory(AllocError),
}

impl From<AllocError> for PartsFault {
    ghost use Rattle.formula_text.specs.declared.fault.PartsFault.TheVariants.{Memory};

    ghost from_gives = { λ e fault. fault ≡ Memory e };

    fn from(e: AllocError) -> PartsFault {
        PartsFault::Memory(e)
    }
}

/// Why a text isn't the text of a formula: the first of these causes. A place is the number of
/// bytes before it.
#[derive(Clone, Copy, Debug, PartialEq, Eq, Error)]
pub enum FormulaFault {
    /// The first byte at which no formula text can go on, or the length of a text that ends inside an item.
    #[error("bad text at {place}")]
    BadText { place: u64 },
    /// The first item that isn't in the table, by its first byte, where its element isn't.
    #[error("unknown symbol at {place}")]
    UnknownSymbol { place: u64 },
    /// The first item that isn't in the table, by its first byte, where its element is, and has no isotope of
    /// that number.
    #[error("unknown isotope at {place}")]
    UnknownIsotope { place: u64 },
    /// More than 10,000 atoms of an item, or more than 20,000 in all.
    #[error("too many atoms")]
    TooManyAtoms,
    /// More than 20 items have an atom.
    #[error("too many elements")]
    TooManyElements,
    /// No item has an atom, as in the empty text.
    #[error("empty")]
    Empty,
    /// Want of memory.
    #[error(transparent)]
    Memory(AllocError),
}

impl FormulaFault {
    /// What a note says of the fault. Want of memory has the words `memory`.
    pub fn words(&self, alloc: Global) -> Result<String, AllocError>
        ensures { IfOk result (λ words. string_bytes words ≡ formula_fault_words self.now) }
    {
        match self {
            FormulaFault::BadText { place } => format!(in alloc; "bad text at {place}"),
            FormulaFault::UnknownSymbol { place } => format!(in alloc; "unknown symbol at {place}"),
            FormulaFault::UnknownIsotope { place } => format!(in alloc;
                "unknown isotope at {place}"
            ),
            FormulaFault::TooManyAtoms => String::from_str(alloc, "too many atoms"),
            FormulaFault::TooManyElements => String::from_str(alloc, "too many elements"),
            FormulaFault::Empty => String::from_str(alloc, "empty"),
            FormulaFault::Memory(_) => String::from_str(alloc, "memory"),
        }
    }
}

impl From<AllocError> for FormulaFault {
    ghost use Rattle.formula_text.specs.declared.fault.FormulaFault.TheVariants.{Memory};

    ghost from_gives = { λ e fault. fault ≡ Memory e };

    fn from(e: AllocError) -> FormulaFault {
        FormulaFault::Memory(e)
    }
}

impl From<PartsFault> for FormulaFault {
    ghost use Rattle.formula_text.specs.FormulaFaults.{fault_of};

    ghost from_gives = { λ e fault. fault ≡ fault_of e };

    fn from(e: PartsFault) -> FormulaFault {
        match e {
            PartsFault::TooManyAtoms => FormulaFault::TooManyAtoms,
            PartsFault::TooManyElements => FormulaFault::TooManyElements,
            PartsFault::Memory(e) => FormulaFault::Memory(e),
        }
    }
}

impl<T: Drop> From<AllocFailed<T>> for FormulaFault {
    ghost use Rattle.std.specs.Prelude.{alloc_error};
    ghost use Rattle.formula_text.specs.declared.fault.FormulaFault.TheVariants.{Memory};

    ghost from_gives = { λ _ fault. fault ≡ Memory alloc_error };

    fn from(e: AllocFailed<T>) -> FormulaFault {
        FormulaFault::Memory(AllocError::from(e))
    }
}
