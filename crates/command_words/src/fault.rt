//! Why words are no request.
ghost use Rattle.std.specs.Prelude.{◌≡◌, IfOk, string_bytes};
ghost use Rattle.command_words.specs.WordsFaults.{words_fault_words};

use crate::options::option_name;
use clap::error::ErrorKind;
use std::alloc::{AllocError, Global};
use thiserror::Error;

/// Why the words of the command line are no request: the first of these causes.
#[derive(Clone, Copy, Debug, PartialEq, Eq, Error)]
pub enum WordsFault {
    /// No command, or none that exists; or the words behind it don't give options of the command their values,
    /// each at most once; or an option that the command requires is absent; or of options of which exactly one is
    /// asked there is none or more than one; or two are there that exclude each other; or an option is without the
    /// one that it goes with.
    #[error("words")]
    Words,
    /// A value is outside the range of its option. Options are numbered from 1 in the order of the table of
    /// options, and of several such options this is the first.
    #[error("value of option {option}")]
    Value { option: u32 },
    /// Want of memory.
    #[error("memory")]
    Memory,
}

impl WordsFault {
    /// What a note says of the fault, behind `isoform: `. Want of memory has the words `memory`.
    pub fn words(&self, alloc: Global) -> Result<String, AllocError>
        ensures { IfOk result (λ words. string_bytes words ≡ words_fault_words self.now) }
    {
        match self {
            WordsFault::Words => String::from_str(alloc, "words"),
            WordsFault::Value { option } => {
                let option = option_name(*option);
                format!(in alloc; "value: {option}")
            }
            WordsFault::Memory => String::from_str(alloc, "memory"),
        }
    }
}

impl From<AllocError> for WordsFault {
    ghost use Rattle.command_words.specs.declared.fault.WordsFault.TheVariants.{Memory};

    ghost from_gives = { λ _ fault. fault ≡ Memory };

    fn from(_error: AllocError) -> WordsFault {
        WordsFault::Memory
    }
}

impl From<clap::Error> for WordsFault {
    ghost use Rattle.clap.specs.Words.{kind_of};
    ghost use Rattle.command_words.specs.ClapCommands.{parse_fault};

    ghost from_gives = { λ error fault. fault ≡ parse_fault (kind_of error) };

    /// `clap` fails for want of memory, or because the words aren't its command's.
    fn from(error: clap::Error) -> WordsFault {
        match error.kind() {
            ErrorKind::OutOfMemory => WordsFault::Memory,
            _ => WordsFault::Words,
        }
    }
}
