//! Why the bytes of a certificate are refused, and what a note says of it.

ghost use Rattle.std.specs.Prelude.{◌≡◌, IfOk, string_bytes, alloc_error};
ghost use Rattle.certificate_text.specs.CertificateFaults.{certificate_fault_words};
ghost use Rattle.certificate_text.specs.declared.fault.CertificateFault.TheVariants.{Memory};

use std::alloc::{AllocError, AllocFailed, Global};
use thiserror::Error;

/// Why the bytes of a certificate are refused: the first fault in the order of the lines; `line` is the line's number
/// from 1.
#[derive(Debug, Drop, Error)]
pub enum CertificateFault {
    /// The line isn't one that may stand there.
    #[error("line {line}: not a line of a certificate")]
    BadLine { line: u64 },
    /// The second line's text isn't that of a formula of the table.
    #[error("line 2: not a formula")]
    FormulaLine,
    /// The line's text isn't a whole number of at most 10^18.
    #[error("line {line}: not a whole number of at most 10^18")]
    NumberLine { line: u64 },
    /// The lines run out before `end`.
    #[error("the line end is missing")]
    EndMissing,
    /// Want of memory.
    #[error(transparent)]
    Memory(AllocError),
}

impl CertificateFault {
    /// What a note says of the fault, behind `isoform: certificate text: `. Want of memory has the words `memory`.
    pub fn words(&self, alloc: Global) -> Result<String, AllocError>
        ensures { IfOk result (λ words. string_bytes words ≡ certificate_fault_words self.now) }
    {
        match self {
            CertificateFault::BadLine { line } => format!(in alloc; "bad line {line}"),
            CertificateFault::FormulaLine => String::from_str(alloc, "formula line"),
            CertificateFault::NumberLine { line } => format!(in alloc; "number line {line}"),
            CertificateFault::EndMissing => String::from_str(alloc, "end missing"),
            CertificateFault::Memory(_) => String::from_str(alloc, "memory"),
        }
    }
}

impl From<AllocError> for CertificateFault {
    ghost from_gives = { λ e fault. fault ≡ Memory e };

    fn from(error: AllocError) -> CertificateFault {
        CertificateFault::Memory(error)
    }
}

impl<T: Drop> From<AllocFailed<T>> for CertificateFault {
    ghost from_gives = { λ _ fault. fault ≡ Memory alloc_error };

    fn from(_failed: AllocFailed<T>) -> CertificateFault {
        CertificateFault::Memory(AllocError)
    }
}
