//! The m/z of the peaks whose formulas are asked for.
ghost use Rattle.std.specs.Prelude.{All, IfOk};
ghost use Rattle.mass_scaling.specs.declared.limits.TheConstants.{MAX_MZ};
ghost use Rattle.command_words.specs.Requests.{IsWithin};
ghost use Rattle.command_words.specs.declared.options.TheConstants.{MIN_MZ};
ghost use Rattle.command_io.specs.Parts.{IsPart, shelved};
ghost use Rattle.command_io.specs.Refusals.{GivesInput};
ghost use Rattle.formula_reports.specs.Inputs.{IsMz};
ghost use Rattle.formula_reports.specs.Steps.{mzs_in, peaks_names, peaks_step};

use command_io::{MAX_FILE_BYTES, Refusal, fetch_file};
use command_words::Word;
use outside_ports::Shelf;
use peak_text::read_peaks;
use std::alloc::Global;

/// The m/z of the peaks that bytes are.
fn mzs_in(alloc: Global, bytes: &[u8]) -> Result<Vec<u64>, Refusal>
    ensures mzs { GivesInput (λ v. v.items) (mzs_in bytes.now) result }
    ensures in_range { IfOk result (λ v. All IsMz v.items) }
{
    let peaks = read_peaks(alloc, bytes)?;
    Ok(Vec::from_slice(alloc, peaks.mz())?)
}

/// The m/z of the peaks: one that is given, or those of a file.
pub fn peaks_of<H: Shelf>(
    alloc: Global,
    mass: Option<u64>,
    peaks: &Option<Word>,
    shelf: &mut H,
) -> Result<Vec<u64>, Refusal>
    requires { IsWithin MIN_MZ MAX_MZ mass }
    ensures part { IsPart (λ v. v.items) (peaks_names mass peaks.now) (peaks_step mass peaks.now)
        (shelved (H.held shelf.old) (H.asked shelf.old) (H.faults shelf.old))
        (shelved (H.held shelf.new) (H.asked shelf.new) (H.faults shelf.new)) result }
    ensures in_range { IfOk result (λ v. All IsMz v.items) }
{
    match (mass, peaks) {
        (Some(mass), _) => Ok(Vec::from_slice(alloc, &[mass])?),
        (None, Some(name)) => {
            let bytes = fetch_file(alloc, name, MAX_FILE_BYTES, shelf)?;
            mzs_in(alloc, &bytes)
        }
        (None, None) => Ok(Vec::new(alloc)),
    }
}
