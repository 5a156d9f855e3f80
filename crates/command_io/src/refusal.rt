//! Why a run ends without its report, and the note that it leaves.
ghost use Rattle.std.specs.Prelude.{◌≡◌, IfOk};
ghost use Rattle.command_io.specs.Notes.{message_of, note_of, status_of};
ghost use Rattle.command_io.specs.Refusals.{of_adduct_fault, of_after_fault, of_alphabet_fault, of_certificate_fault};
ghost use Rattle.command_io.specs.Refusals.{of_formula_fault, of_peak_fault, of_rules_fault, of_table_fault};
ghost use Rattle.command_io.specs.Refusals.{of_tracer_fault, of_words_fault};
ghost use Rattle.command_io.specs.declared.refusal.Refusal.TheVariants.{Input, Memory};

use crate::input_fault::{InputFault, labelled};
use adducts::AdductFault;
use alphabet_text::AlphabetFault;
use certificate_text::CertificateFault;
use command_words::{Word, WordsFault};
use element_table::{TableFault, TracerFault};
use formula_text::FormulaFault;
use golden_rules::RulesFault;
use peak_text::PeakFault;
use std::alloc::{AllocError, Global};

/// The notes that can be told without memory.
pub const WRITE_FAULT_NOTE: &[u8] = b"isoform: write fault\n";

pub const MEMORY_NOTE: &[u8] = b"isoform: memory\n";

/// Why a run ends without its report.
#[derive(Debug, Drop)]
pub enum Refusal {
    /// The words are no request, or the value of an option is outside its range.
    Words(WordsFault),
    /// What the words name is refused.
    Input(InputFault),
    /// The file of this name could not be read.
    ReadFault(Word),
    /// The report could not be written.
    WriteFault,
    /// Want of memory.
    Memory,
}

impl From<AllocError> for Refusal {
    ghost from_gives = { λ _ refusal. refusal ≡ Memory };

    fn from(_: AllocError) -> Refusal {
        Refusal::Memory
    }
}

impl From<InputFault> for Refusal {
    ghost from_gives = { λ e refusal. refusal ≡ Input e };

    fn from(fault: InputFault) -> Refusal {
        Refusal::Input(fault)
    }
}

impl From<WordsFault> for Refusal {
    ghost from_gives = { λ e refusal. refusal ≡ of_words_fault e };

    fn from(fault: WordsFault) -> Refusal {
        match fault {
            WordsFault::Memory => Refusal::Memory,
            fault => Refusal::Words(fault),
        }
    }
}

impl From<TableFault> for Refusal {
    ghost from_gives = { λ e refusal. refusal ≡ of_table_fault e };

    fn from(fault: TableFault) -> Refusal {
        match fault {
            TableFault::Memory(_) => Refusal::Memory,
            fault => Refusal::Input(InputFault::Table(fault)),
        }
    }
}

impl From<TracerFault> for Refusal {
    ghost from_gives = { λ e refusal. refusal ≡ of_tracer_fault e };

    fn from(fault: TracerFault) -> Refusal {
        match fault {
            TracerFault::Memory(_) => Refusal::Memory,
            fault => Refusal::Input(InputFault::Tracer(fault)),
        }
    }
}

impl From<PeakFault> for Refusal {
    ghost from_gives = { λ e refusal. refusal ≡ of_peak_fault e };

    fn from(fault: PeakFault) -> Refusal {
        match fault {
            PeakFault::Memory(_) => Refusal::Memory,
            fault => Refusal::Input(InputFault::Peaks(fault)),
        }
    }
}

impl From<AlphabetFault> for Refusal {
    ghost from_gives = { λ e refusal. refusal ≡ of_alphabet_fault e };

    fn from(fault: AlphabetFault) -> Refusal {
        match fault {
            AlphabetFault::Memory => Refusal::Memory,
            fault => Refusal::Input(InputFault::Alphabet(fault)),
        }
    }
}

impl From<AdductFault> for Refusal {
    ghost from_gives = { λ e refusal. refusal ≡ of_adduct_fault e };

    fn from(fault: AdductFault) -> Refusal {
        match fault {
            AdductFault::Memory => Refusal::Memory,
            fault => Refusal::Input(InputFault::Adduct(fault)),
        }
    }
}

impl From<RulesFault> for Refusal {
    ghost from_gives = { λ e refusal. refusal ≡ of_rules_fault e };

    fn from(fault: RulesFault) -> Refusal {
        match fault {
            RulesFault::Memory(_) => Refusal::Memory,
            fault => Refusal::Input(InputFault::Rules(fault)),
        }
    }
}

impl From<FormulaFault> for Refusal {
    ghost from_gives = { λ e refusal. refusal ≡ of_formula_fault e };

    fn from(fault: FormulaFault) -> Refusal {
        match fault {
            FormulaFault::Memory(_) => Refusal::Memory,
            fault => Refusal::Input(InputFault::Formula(fault)),
        }
    }
}

impl From<CertificateFault> for Refusal {
    ghost from_gives = { λ e refusal. refusal ≡ of_certificate_fault e };

    fn from(fault: CertificateFault) -> Refusal {
        match fault {
            CertificateFault::Memory(_) => Refusal::Memory,
            fault => Refusal::Input(InputFault::Certificate(fault)),
        }
    }
}

impl Refusal {
    /// The refusal of a formula after which a list is to begin.
    pub fn of_after(fault: FormulaFault) -> Refusal
        ensures { result ≡ of_after_fault fault }
    {
        match fault {
            FormulaFault::Memory(_) => Refusal::Memory,
            fault => Refusal::Input(InputFault::After(fault)),
        }
    }

    /// The exit status.
    pub fn status(&self) -> u8
        ensures { result ≡ status_of self.now }
    {
        match self {
            Refusal::Words(_) => 2,
            Refusal::Input(fault) => fault.status(),
            Refusal::ReadFault(_) => 7,
            Refusal::WriteFault => 8,
            Refusal::Memory => 9,
        }
    }

    /// What a note says of the refusal.
    fn message(&self, alloc: Global) -> Result<Vec<u8>, AllocError>
        ensures { IfOk result (λ message. message.items ≡ message_of self.now) }
    {
        match self {
            Refusal::Words(fault) => Ok(fault.words(alloc)?.into_bytes()),
            Refusal::Input(fault) => fault.message(alloc),
            Refusal::ReadFault(name) => { labelled(alloc, b"read fault: ", name.text().as_bytes()) }
            Refusal::WriteFault => Vec::from_slice(alloc, b"write fault"),
            Refusal::Memory => Vec::from_slice(alloc, b"memory"),
        }
    }

    /// The note, one line.
    pub fn note(&self, alloc: Global) -> Result<Vec<u8>, AllocError>
        ensures { IfOk result (λ note. note.items ≡ note_of self.now) }
    {
        let mut note = labelled(alloc, b"isoform: ", &self.message(alloc)?)?;
        note.push(b'\n')?;
        Ok(note)
    }
}
