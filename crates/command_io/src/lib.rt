//! What the commands of the program have in common: how a file is fetched and read, how a report is put, and why there is
//! none.
//!
//! A [`Refusal`] says why a run ends without its report, with its exit status and the note that it leaves; an
//! [`InputFault`] what is wrong with what the program was given. A part of a run answers a value or a refusal, and its
//! contract says which of these, as the definition of its step over the shelf's files does, and what it shows of the shelf
//! and of the output (`Parts`). Parts are put together one behind another by the laws of `PartLaws`, `GivenSteps`, `Puts`
//! and `PutLines`.
//!
//! The crate stands on `outside_ports` for shelves and sinks, on `command_words` for the words that name files and texts, on
//! `element_table`, `alphabet_text`, `adducts`, `golden_rules` and `candidates` for what it reads, and on the crates whose
//! faults it tells: these, `peak_text`, `formula_text`, `certificate_text` and `certificate_check`.
#![tactic(auto)]

mod input_fault;
mod inputs;
mod output;
mod refusal;

pub use input_fault::InputFault;
pub use inputs::{MAX_FILE_BYTES, adduct_in, fetch_file, ground_of, table_of, traced_table};
pub use output::{put_line, put_text};
pub use refusal::{MEMORY_NOTE, Refusal, WRITE_FAULT_NOTE};
