//! What is wrong with what the program was given: the files and the texts that its words name.
ghost use Rattle.std.specs.Prelude.{◌≡◌, ◌++◌, IfOk};
ghost use Rattle.command_io.specs.Notes.{fault_message, status_of_fault};

use adducts::AdductFault;
use alphabet_text::AlphabetFault;
use certificate_check::Judgement;
use certificate_text::CertificateFault;
use command_words::Word;
use element_table::{TableFault, TracerFault};
use formula_text::{Formula, FormulaFault};
use golden_rules::RulesFault;
use peak_text::PeakFault;
use std::alloc::{AllocError, Global};

/// Why what the program was given is refused. Want of memory is none of these.
#[derive(Debug, Drop)]
pub enum InputFault {
    /// The file of this name is longer than its limit.
    FileLimit(Word),
    /// The table's bytes have a fault.
    Table(TableFault),
    /// The tracer's bytes have a fault.
    Tracer(TracerFault),
    /// The bytes of the peaks have a fault.
    Peaks(PeakFault),
    /// The list has no peak of this number.
    NoPeak { peak: u64 },
    /// The text of the alphabet has a fault.
    Alphabet(AlphabetFault),
    /// The text of the adduct has a fault.
    Adduct(AdductFault),
    /// The bytes of the rules have a fault.
    Rules(RulesFault),
    /// The text of the formula after which the list is to begin has a fault.
    After(FormulaFault),
    /// That formula has an item that isn't of the alphabet, or a count outside its limits.
    NotInBox,
    /// The text of the formula has a fault.
    Formula(FormulaFault),
    /// The formula has no ion of the adduct.
    NoIon,
    /// The peak of this number has more than 1,048,576 formulas.
    CandidateLimit { peak: u64 },
    /// This ion has too many isotopologues in a layer.
    Layer(Formula),
    /// The bytes of the certificate have a fault.
    Certificate(CertificateFault),
    /// The certificate isn't accepted: this is judged of it.
    Rejected(Judgement),
    /// The text of the cover's certificate would have more than 268,435,456 bytes.
    CertificateLimit,
}

impl InputFault {
    /// The exit status.
    pub fn status(&self) -> u8
        ensures { result ≡ status_of_fault self.now }
    {
        match self {
            InputFault::Rejected(_) => 1,
            InputFault::Table(_) | InputFault::Tracer(_) => 3,
            InputFault::Peaks(_) | InputFault::NoPeak { .. } => 4,
            InputFault::Alphabet(_)
            | InputFault::Adduct(_)
            | InputFault::Rules(_)
            | InputFault::After(_)
            | InputFault::NotInBox
            | InputFault::Formula(_)
            | InputFault::NoIon
            | InputFault::Certificate(_) => 5,
            InputFault::FileLimit(_)
            | InputFault::CandidateLimit { .. }
            | InputFault::Layer(_)
            | InputFault::CertificateLimit => 6,
        }
    }

    /// What a note says of the fault.
    pub fn message(&self, alloc: Global) -> Result<Vec<u8>, AllocError>
        ensures { IfOk result (λ message. message.items ≡ fault_message self.now) }
    {
        match self {
            InputFault::FileLimit(name) => {
                labelled(alloc, b"limit: file ", name.text().as_bytes())
            }
            InputFault::Table(fault) => {
                labelled(alloc, b"table: ", fault.words(alloc)?.as_bytes())
            }
            InputFault::Tracer(fault) => {
                labelled(alloc, b"tracer: ", fault.words(alloc)?.as_bytes())
            }
            InputFault::Peaks(fault) => {
                labelled(alloc, b"peaks: ", fault.words(alloc)?.as_bytes())
            }
            InputFault::NoPeak { peak } => {
                let message = format!(in alloc; "peaks: no peak {peak}")?;
                Ok(message.into_bytes())
            }
            InputFault::Alphabet(fault) => {
                labelled(alloc, b"alphabet: ", fault.words(alloc)?.as_bytes())
            }
            InputFault::Adduct(fault) => {
                labelled(alloc, b"adduct: ", fault.words(alloc)?.as_bytes())
            }
            InputFault::Rules(fault) => {
                labelled(alloc, b"rules: ", fault.words(alloc)?.as_bytes())
            }
            InputFault::After(fault) => {
                labelled(alloc, b"after: ", fault.words(alloc)?.as_bytes())
            }
            InputFault::NotInBox => Vec::from_slice(alloc, b"after: not in box"),
            InputFault::Formula(fault) => {
                labelled(alloc, b"formula: ", fault.words(alloc)?.as_bytes())
            }
            InputFault::NoIon => Vec::from_slice(alloc, b"ion: not defined"),
            InputFault::CandidateLimit { peak } => {
                let message = format!(in alloc; "limit: candidates of peak {peak}")?;
                Ok(message.into_bytes())
            }
            InputFault::Layer(ion) => labelled(alloc, b"limit: layer of ", &ion.print()?),
            InputFault::Certificate(fault) => {
                labelled(alloc, b"certificate text: ", fault.words(alloc)?.as_bytes())
            }
            InputFault::Rejected(judgement) => {
                labelled(alloc, b"certificate: ", &judgement.words(alloc)?)
            }
            InputFault::CertificateLimit => Vec::from_slice(alloc, b"limit: certificate"),
        }
    }
}

/// Words behind what they are about.
pub fn labelled(alloc: Global, label: &[u8], words: &[u8]) -> Result<Vec<u8>, AllocError>
    ensures { IfOk result (λ message. message.items ≡ label.now ++ words.now) }
{
    let mut message = Vec::from_slice(alloc, label)?;
    message.extend_from_slice(words)?;
    Ok(message)
}
