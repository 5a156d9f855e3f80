//! Isoform: the molecular formulas of accurate masses and the isotopologues of formulas that cover most of their
//! probability, in whole numbers of stated units.
//!
//! [`run`](run::run) is the program: from its words and a shelf of files to what an output and notes receive, and a
//! status. `main` only hands it the process's own.
//!
//! Contracts see words and reports as their bytes, and files and streams as `outside_ports` shows them. The program
//! stands on `command_words` for its words, on `formula_reports` for `decompose`, on `cover_reports` for `envelope` and
//! `check`, on `ranking_reports` for `rank` and `generate`, on `command_io` for refusals and their notes, and on
//! `outside_ports` for its devices. Definitions of other crates are cited by what is claimed of reports.
//! Nothing stands above it. It gives out [`request_of`] and [`cover_of`] with their types too.
#![tactic(auto)]

mod run;

use outside_ports::{FileShelf, Sink, StreamSink};

#[cfg(test)]
mod certificate_tests;
#[cfg(test)]
mod device_tests;
#[cfg(test)]
mod envelope_tests;
#[cfg(test)]
mod json_tests;
#[cfg(test)]
mod option_tests;
#[cfg(test)]
mod ranking_tests;
#[cfg(test)]
mod rows;
#[cfg(test)]
mod tests;

ghost use Rattle.std.specs.Prelude.{◌≡◌, ◌≢◌, ◌<◌, drop};
ghost use Rattle.outside_ports.specs.Faults.{Rose};

use command_io::{MEMORY_NOTE, WRITE_FAULT_NOTE};
pub use command_words::{Request, Word, WordsFault, request_of};
pub use cover_certificate::{Cover, CoverFault, CoverMember, cover_of};
pub use run::run;
use std::alloc::AllocError;
use std::env;
use std::io::{self, BufWriter, Write};
use std::process::ExitCode;

/// How many bytes of a report are gathered before they are written.
const OUTPUT_BUFFER: usize = 65_536;

fn main(rt: HostRuntime) -> ExitCode {
    let mut notes = StreamSink::new(rt.stderr());
    let status = match serve_process(rt, &mut notes) {
        Ok(status) => status,
        Err(AllocError) => {
            let _ = notes.put(MEMORY_NOTE);
            9
        }
    };
    ExitCode::from(status)
}

/// Runs the program on the process's words, files and output. Words that are no text are no request, as none are.
fn serve_process<M: Sink>(rt: HostRuntime, notes: &mut M) -> Result<u8, AllocError> {
    let alloc = rt.alloc();
    let words = match env::args(&rt) {
        Ok(args) => words_behind(args.collect(alloc)?),
        Err(error) if error.kind() == io::ErrorKind::OutOfMemory => return Err(AllocError),
        Err(_) => Vec::new(alloc),
    };
    let Ok(buffer) = BufWriter::with_capacity(alloc, OUTPUT_BUFFER, rt.stdout()) else {
        return Err(AllocError);
    };
    let mut out = StreamSink::new(buffer);
    let mut shelf = FileShelf::new(alloc, rt);
    let status = run(alloc, &words, &mut shelf, &mut out, notes);
    Ok(finish(status, &mut out, notes))
}

/// The words behind the program's name, which is the first of all.
fn words_behind(mut words: Vec<String>) -> Vec<String>
    ensures { result.items ≡ drop 1 words.items }
{
    if !words.is_empty() {
        words.remove(0);
    }
    words
}

/// The status once what is left of the report in the output's buffer is written out: where that fails it is 8, and a write
/// fault is told, unless the run had told it.
fn finish<W: Write + Drop, M: Sink>(status: u8, out: &mut StreamSink<W>, notes: &mut M) -> u8
    // The status stays where the output's count of faults is as it was, and is 8 where it is greater.
    ensures kept { ¬ Rose out.old.1 out.new.1 → result ≡ status }
    ensures failed { out.old.1 < out.new.1 → result ≡ 8 }
    ensures write_fault { result ≢ status → result ≡ 8 }
{
    if out.finish().is_ok() {
        return status;
    }
    if status != 8 {
        let _ = notes.put(WRITE_FAULT_NOTE);
    }
    8
}
