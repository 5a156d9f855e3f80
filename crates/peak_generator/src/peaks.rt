//! The peaks of formulas.
ghost use Rattle.std.specs.Prelude.{◌≡◌, ◌≤◌, All, IfOk, length};
ghost use Rattle.std.specs.List.{filter_map};
ghost use Rattle.reader_answers.specs.Answers.{Gives};
ghost use Rattle.formula_text.specs.Masses.{HasItems};
ghost use Rattle.peak_text.specs.PeakFaults.{is_memory};
ghost use Rattle.peak_text.specs.declared.limits.TheConstants.{MAX_PEAKS};
ghost use Rattle.peak_generator.specs.MadePeaks.{made_peak, made_peaks, peak_of_mass, place_without};

use adducts::{Adduct, ion_mass};
use element_table::Table;
use formula_text::Formula;
use peak_text::{MAX_MZ, MAX_PEAKS, PeakFault, Peaks};
use std::alloc::{AllocError, Global};

/// The intensity of each peak that is made, 1,000 in 10^-6.
pub const MADE_INTENSITY: u64 = 1_000_000_000;

/// The peaks of the ions of formulas, at most 10,000, each with the intensity 1,000. The adduct has one charge, and the
/// table has each item.
///
/// Where the mass of an ion is above 20,000 Da, or there is none, the fault is that of the first such m/z, with the
/// number that its record would have in a file.
pub fn made_peaks(
    alloc: Global,
    table: &Table,
    adduct: &Adduct,
    formulas: &[Formula],
) -> Result<Peaks, PeakFault>
    requires few { length formulas.now ≤ MAX_PEAKS }
    requires known { All (HasItems table.now) formulas.now }
    requires added_known { HasItems table.now adduct.now.added }
    requires lost_known { HasItems table.now adduct.now.lost }
    ensures peaks { Gives is_memory result (made_peaks table.now adduct.now formulas.now) }
    ensures count { IfOk result (λ peaks. length peaks ≡ length formulas.now) }
{
    if let Some(place) = place_without(table, adduct, formulas) {
        return Err(PeakFault::Mz {
            row: place as u64 + 2,
        });
    }
    let pairs = made_pairs(alloc, table, adduct, formulas)?;
    match Peaks::of(alloc, &pairs)? {
        Some(peaks) => Ok(peaks),
        None => unreachable!(),
    }
}

/// The place of the first formula without a peak.
fn place_without(table: &Table, adduct: &Adduct, formulas: &[Formula]) -> Option<usize>
    requires known { All (HasItems table.now) formulas.now }
    requires added_known { HasItems table.now adduct.now.added }
    requires lost_known { HasItems table.now adduct.now.lost }
    ensures { result ≡ place_without table.now adduct.now formulas.now }
{
    formulas
        .iter()
        .position(|formula| made_peak(table, adduct, formula).is_none())
}

/// The peaks of the formulas that have one.
fn made_pairs(
    alloc: Global,
    table: &Table,
    adduct: &Adduct,
    formulas: &[Formula],
) -> Result<Vec<(u64, u64)>, AllocError>
    requires known { All (HasItems table.now) formulas.now }
    requires added_known { HasItems table.now adduct.now.added }
    requires lost_known { HasItems table.now adduct.now.lost }
    ensures { IfOk result (λ pairs. pairs.items ≡ filter_map (made_peak table.now adduct.now) formulas.now) }
{
    formulas
        .iter()
        .filter_map(|formula| made_peak(table, adduct, formula))
        .collect(alloc)
}

/// The peak of the ion of a formula.
fn made_peak(table: &Table, adduct: &Adduct, formula: &Formula) -> Option<(u64, u64)>
    requires known { HasItems table.now formula.now }
    requires added_known { HasItems table.now adduct.now.added }
    requires lost_known { HasItems table.now adduct.now.lost }
    ensures { result ≡ made_peak table.now adduct.now formula.now }
{
    peak_of_mass(ion_mass(table, formula, adduct)?)
}

/// The peak of a mass.
fn peak_of_mass(mass: i128) -> Option<(u64, u64)>
    ensures { result ≡ peak_of_mass (Some mass) }
{
    if 1 <= mass && mass <= i128::from(MAX_MZ) {
        Some((mass as u64, MADE_INTENSITY))
    } else {
        None
    }
}
