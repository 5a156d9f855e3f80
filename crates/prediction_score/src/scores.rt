//! The score of a prediction.
ghost use Rattle.std.specs.Prelude.{◌≡◌, ◌≤◌, ◌<◌, ◌*◌, IfOk, length, sum_by};
ghost use Rattle.prediction_score.specs.PeakOrders.{Each};
ghost use Rattle.prediction_score.specs.Scores.{ArePredicted, AreTerms, observed_share, score_of};
ghost use Rattle.prediction_score.specs.Misfits.{misfit_of_totals, total_intensity};
ghost use Rattle.prediction_score.specs.declared.predicted.TheConstants.{MAX_LO_TOTAL};

use crate::order::PeakOrder;
use crate::predicted::Predicted;
use crate::shares::{Total, shares_of};
use mass_scaling::Tolerance;
use peak_text::Peaks;
use std::alloc::{AllocError, Global};

impl<'p> PeakOrder<'p> {
    /// The score of the members of a prediction, in 10^-18; smaller is better. Each member goes to one of the peaks
    /// within tolerance of its mass, with the divisor: the nearest, and of two as near the first. A peak's observed
    /// share is its part of the matched members' `lo` total by its intensity, rounded down. The score is the `lo` total
    /// of the members without a peak, and how far the totals at the peaks are from their observed shares.
    ///
    /// The only error is want of memory.
    pub fn score(
        &self,
        alloc: Global,
        members: &[Predicted],
        divisor: u32,
        tolerance: Tolerance,
    ) -> Result<u64, AllocError>
        requires terms { AreTerms divisor tolerance }
        requires members { ArePredicted members.now }
        ensures { IfOk result (λ score. score ≡ score_of self.now divisor tolerance members.now) }
    {
        let shares = shares_of(alloc, self, members, divisor, tolerance)?;
        let misfit = misfit(self.peaks().intensity(), &shares.totals, shares.matched);
        Ok(shares.unmatched + misfit)
    }
}

/// How far totals at peaks are from the peaks' observed shares, where `matched` is the sum of the totals.
fn misfit(intensity: &[u64], totals: &[Total], matched: u64) -> u64
    requires inside { Each (λ t. t.place < length intensity.now) totals.now }
    requires matched { matched ≡ sum_by (λ t. t.lo) totals.now }
    requires in_range { matched ≤ MAX_LO_TOTAL }
    ensures misfit { result ≡ misfit_of_totals intensity.now totals.now matched }
    ensures in_range { result ≤ 2 * MAX_LO_TOTAL }
{
    let whole = total_intensity(intensity, totals);
    let mut misfit = 0;
    for total in totals {
        let observed = observed_share(intensity[total.place], matched, whole);
        misfit += total.lo.abs_diff(observed);
    }
    misfit
}

/// The sum of the intensities of the peaks of totals.
fn total_intensity(intensity: &[u64], totals: &[Total]) -> u128
    requires { Each (λ t. t.place < length intensity.now) totals.now }
    ensures { result ≡ total_intensity intensity.now totals.now }
{
    let mut sum = 0;
    for total in totals {
        sum += u128::from(intensity[total.place]);
    }
    sum
}

/// The observed share of a peak, rounded down; 0 where the peaks have no intensity.
fn observed_share(intensity: u64, matched: u64, whole: u128) -> u64
    requires { intensity ≤ whole }
    ensures share { result ≡ observed_share intensity matched whole }
    ensures in_range { result ≤ matched }
{
    if whole == 0 {
        return 0;
    }
    (u128::from(intensity) * u128::from(matched) / whole) as u64
}

/// The score of the members of a prediction against peaks that no other prediction is held against; it is that of
/// [`PeakOrder::score`].
pub fn score(
    alloc: Global,
    members: &[Predicted],
    divisor: u32,
    peaks: &Peaks,
    tolerance: Tolerance,
) -> Result<u64, AllocError>
    requires terms { AreTerms divisor tolerance }
    requires members { ArePredicted members.now }
    ensures { IfOk result (λ score. score ≡ score_of peaks.now divisor tolerance members.now) }
{
    PeakOrder::of(alloc, peaks)?.score(alloc, members, divisor, tolerance)
}
