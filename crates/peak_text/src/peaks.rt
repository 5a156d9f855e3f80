//! A peak list.

ghost use Rattle.std.specs.Prelude.{◌≡◌, ◌↔◌, IfOk, IsSome, map};
ghost use Rattle.std.specs.List.{list_all};
ghost use Rattle.peak_text.specs.PeakLists.{ArePeaks, are_peaks, is_peak, peaks_in};

use crate::limits::{MAX_INTENSITY, MAX_MZ, MAX_PEAKS};
use std::alloc::{AllocError, Global};
use std::marker::Model;

/// At most 10,000 peaks, as a column of m/z and one of intensities. Contracts see the list of pairs.
#[derive(Debug, Drop)]
pub struct Peaks {
    mz: Vec<u64>,
    intensity: Vec<u64>,
}

impl Model for Peaks {
    ghost use Rattle.std.specs.Prelude.{List, ℕ};
    ghost use Rattle.std.specs.List.{zip};
    ghost use Rattle.peak_text.specs.PeakLists.{AreColumns};

    ghost Value = { List (ℕ × ℕ) };

    ghost view = { λ peaks. zip peaks.mz.items peaks.intensity.items };

    ghost invariant = { λ peaks. AreColumns peaks.mz.items peaks.intensity.items };
}

impl Peaks {
    /// The peaks of these pairs of m/z, in 10^-12 Da, and intensity, in 10^-6. `None` exactly where there are more than
    /// 10,000, an m/z is 0 or above 20,000 Da, or an intensity is above 10^12.
    pub fn of(alloc: Global, pairs: &[(u64, u64)]) -> Result<Option<Peaks>, AllocError>
        ensures peaks { IfOk result (λ peaks. peaks ≡ peaks_in pairs.now) }
        ensures some { IfOk result (λ peaks. IsSome peaks ↔ ArePeaks pairs.now) }
    {
        if are_peaks(pairs) {
            Ok(Some(Peaks::of_pairs(alloc, pairs)?))
        } else {
            Ok(None)
        }
    }

    /// The columns of the pairs.
    pub(crate) fn of_pairs(alloc: Global, pairs: &[(u64, u64)]) -> Result<Peaks, AllocError>
        requires { ArePeaks pairs.now }
        ensures { IfOk result (λ peaks. peaks ≡ pairs.now) }
    {
        let mz = mz_column(alloc, pairs)?;
        let intensity = intensity_column(alloc, pairs)?;
        Ok(Peaks { mz, intensity })
    }

    /// The m/z of each peak in 10^-12 Da, above 0 and at most 20,000 Da.
    pub fn mz(&self) -> &[u64]
        ensures mz { result.now ≡ map (λ peak. peak.0) self.now }
        ensures peaks { ArePeaks self.now }
    {
        &self.mz
    }

    /// The intensity of each peak in 10^-6, at most 10^12.
    pub fn intensity(&self) -> &[u64]
        ensures intensity { result.now ≡ map (λ peak. peak.1) self.now }
        ensures peaks { ArePeaks self.now }
    {
        &self.intensity
    }
}

/// The m/z of each pair.
fn mz_column(alloc: Global, pairs: &[(u64, u64)]) -> Result<Vec<u64>, AllocError>
    ensures { IfOk result (λ column. column.items ≡ map (λ peak. peak.0) pairs.now) }
{
    pairs.iter().map(|peak| peak.0).collect(alloc)
}

/// The intensity of each pair.
fn intensity_column(alloc: Global, pairs: &[(u64, u64)]) -> Result<Vec<u64>, AllocError>
    ensures { IfOk result (λ column. column.items ≡ map (λ peak. peak.1) pairs.now) }
{
    pairs.iter().map(|peak| peak.1).collect(alloc)
}

/// Whether pairs are at most 10,000 peaks.
fn are_peaks(pairs: &[(u64, u64)]) -> bool
    ensures { result ≡ are_peaks pairs.now }
{
    pairs.len() <= MAX_PEAKS && is_each_a_peak(pairs)
}

/// Whether each pair is a peak.
fn is_each_a_peak(pairs: &[(u64, u64)]) -> bool
    ensures { result ≡ list_all is_peak pairs.now }
{
    pairs.iter().all(is_peak)
}

/// Whether a pair is a peak.
fn is_peak(peak: &(u64, u64)) -> bool
    ensures { result ≡ is_peak peak.now }
{
    let (mz, intensity) = *peak;
    1 <= mz && mz <= MAX_MZ && intensity <= MAX_INTENSITY
}
