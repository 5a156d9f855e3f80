//! Why the bytes of a rules file are refused, and what a note says of it.

ghost use Rattle.std.specs.Prelude.{◌≡◌, IfOk, string_bytes, alloc_error};
ghost use Rattle.golden_rules.specs.RulesFaults.{rules_fault_words};
ghost use Rattle.golden_rules.specs.declared.fault.RulesFault.TheVariants.{Memory};

use std::alloc::{AllocError, AllocFailed, Global};
use thiserror::Error;

/// Why the bytes of a rules file are refused: the first fault in the order of the lines, and in a line the first of the
/// order below; `line` is the line's number from 1.
#[derive(Clone, Copy, Debug, PartialEq, Eq, Error)]
pub enum RulesFault {
    /// The line is no rule, is not empty and no comment.
    #[error("line {line}: not a rule")]
    BadLine { line: u64 },
    /// The line is a rule that names a symbol which the table doesn't have.
    #[error("line {line}: a symbol that isn't in the table")]
    UnknownSymbol { line: u64 },
    /// The lower end of a ratio or of an unsaturation is greater than the upper end.
    #[error("line {line}: an empty range")]
    EmptyRange { line: u64 },
    /// The line has the 65th rule.
    #[error("line {line}: more than 64 rules")]
    TooMany { line: u64 },
    /// Want of memory.
    #[error(transparent)]
    Memory(AllocError),
}

impl RulesFault {
    /// What a note says of the fault, behind `isoform: rules: `. Want of memory has the words `memory`.
    pub fn words(&self, alloc: Global) -> Result<String, AllocError>
        ensures { IfOk result (λ words. string_bytes words ≡ rules_fault_words self.now) }
    {
        match self {
            RulesFault::BadLine { line } => format!(in alloc; "line {line}: bad line"),
            RulesFault::UnknownSymbol { line } => format!(in alloc; "line {line}: unknown symbol"),
            RulesFault::EmptyRange { line } => format!(in alloc; "line {line}: empty range"),
            RulesFault::TooMany { line } => format!(in alloc; "line {line}: too many"),
            RulesFault::Memory(_) => String::from_str(alloc, "memory"),
        }
    }
}

impl From<AllocError> for RulesFault {
    ghost from_gives = { λ e fault. fault ≡ Memory e };

    fn from(error: AllocError) -> RulesFault {
        RulesFault::Memory(error)
    }
}

impl<T: Drop> From<AllocFailed<T>> for RulesFault {
    ghost from_gives = { λ _ fault. fault ≡ Memory alloc_error };

    fn from(_failed: AllocFailed<T>) -> RulesFault {
        RulesFault::Memory(AllocError)
    }
}
