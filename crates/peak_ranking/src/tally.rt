//! What was found of peaks that are made of formulas.
ghost use Rattle.std.specs.Prelude.{◌≡◌, ◌*◌, ◌≤◌, ◌^◌, IfOk, length, sum_by};
ghost use Rattle.ranking.specs.Places.{by_score};
ghost use Rattle.ranking.specs.Rankings.{max_candidates};
ghost use Rattle.peak_ranking.specs.Tallies.{candidate_count, first_count, found_count, member_count};
ghost use Rattle.peak_ranking.specs.Tallies.{formula_eq, leads, stands_in};

use crate::ranked::RankedPeaks;
use formula_text::Formula;
use ranking::{Ranked, in_places};
use std::alloc::{AllocError, Global};

impl<'t> RankedPeaks<'t> {
    /// How many candidates are found of all peaks.
    pub fn candidate_count(&self) -> u128
        ensures { result ≡ candidate_count self.now }
    {
        let mut count = 0;
        for job in 0..self.job_count() {
            count += self.found(job).len() as u128;
        }
        count
    }

    /// The sum of the sizes of the covers of all candidates that are found.
    pub fn member_count(&self) -> u128
        ensures { result ≡ member_count self.now }
    {
        let mut count = 0;
        for job in 0..self.job_count() {
            count += size_sum(self.found(job));
        }
        count
    }

    /// Among the candidates of how many peaks the formula stands that the peak is made of, where these are the
    /// formulas of the peaks in their order.
    pub fn found_count(&self, formulas: &[Formula]) -> u64
        requires { length formulas.now ≡ length self.now }
        ensures { result ≡ found_count formulas.now self.now }
    {
        let mut count = 0;
        for job in 0..self.job_count() {
            count += u64::from(stands_in(&formulas[job], self.found(job)));
        }
        count
    }

    /// At how many peaks the formula has place 1 that the peak is made of.
    pub fn first_count(&self, alloc: Global, formulas: &[Formula]) -> Result<u64, AllocError>
        requires { length formulas.now ≡ length self.now }
        ensures { IfOk result (λ count. count ≡ first_count formulas.now self.now) }
    {
        let mut count = 0;
        for job in 0..self.job_count() {
            count += u64::from(leads(alloc, &formulas[job], self.found(job))?);
        }
        Ok(count)
    }
}

/// The sum of the sizes of candidates.
fn size_sum(found: &[Ranked]) -> u128
    requires { length found.now ≤ max_candidates }
    ensures sum { result ≡ sum_by (λ entry. entry.size) found.now }
    ensures small { result ≤ max_candidates * 2 ^ 64 }
{
    let mut sum = 0;
    for ranked in found {
        sum += u128::from(ranked.size());
    }
    sum
}

/// Whether two formulas are one.
fn is_same(a: &Formula, b: &Formula) -> bool
    ensures { result ≡ formula_eq a.now b.now }
{
    a.items() == b.items()
}

/// Whether a formula stands among candidates.
fn stands_in(formula: &Formula, found: &[Ranked]) -> bool
    ensures { result ≡ stands_in formula.now found.now }
{
    found
        .iter()
        .any(|ranked| is_same(ranked.formula(), formula))
}

/// Whether a formula has place 1 among candidates.
fn leads(alloc: Global, formula: &Formula, found: &[Ranked]) -> Result<bool, AllocError>
    requires { length found.now ≤ max_candidates }
    ensures { IfOk result (λ first. first ≡ leads formula.now (by_score found.now)) }
{
    match in_places(alloc, found)?.first() {
        Some(place) => Ok(is_same(found[*place].formula(), formula)),
        None => Ok(false),
    }
}
