//! The masses of members as one column, and the peaks that it reaches.
ghost use Rattle.std.specs.Prelude.{◌≡◌, ◌≤◌, [], pos, All, IfOk, IfSome, length, map, unsigned_abs};
ghost use Rattle.mass_scaling.specs.Limits.{AreMeasured};
ghost use Rattle.mass_scaling.specs.declared.limits.TheConstants.{MAX_ION_MASS};
ghost use Rattle.prediction_score.specs.PeakOrders.{Each};
ghost use Rattle.prediction_score.specs.Scores.{AreTerms, IsPredicted};
ghost use Rattle.prediction_score.specs.Columns.{AreAsked, AreReaches, IsReach, IsReachAt};

use crate::order::Entry;
use crate::predicted::Predicted;
use lane_scan::count_between;
use mass_scaling::{Charged, Tolerance, Window, window_of};
use std::alloc::{AllocError, Global};

/// The most members that are compared with their peaks one by one.
const FEW_MEMBERS: usize = 32;

/// Some of the peaks, next to each other by m/z, each with the window of the masses within its tolerance, or none where
/// the window has no mass of the column.
#[derive(Drop)]
pub(crate) struct Asked {
    pub(crate) first: usize,
    pub(crate) reaches: Vec<Option<Window>>,
}

impl Asked {
    /// Nothing is asked. Takes no memory.
    pub(crate) fn none(alloc: Global) -> Asked
        ensures { result.reaches.items ≡ [] }
    {
        Asked {
            first: 0,
            reaches: Vec::new(alloc),
        }
    }

    /// Asks about the peaks that are next to a mass of a column, and about those between them: no other peak is the
    /// nearest to one.
    fn of(
        alloc: Global,
        entries: &[Entry],
        column: &[u64],
        divisor: u32,
        tolerance: Tolerance,
    ) -> Result<Asked, AllocError>
        requires terms { AreTerms divisor tolerance }
        requires measured { Each (λ e. AreMeasured e.mz tolerance divisor) entries.now }
        ensures { IfOk result (AreAsked entries.now column.now divisor tolerance) }
    {
        let (first, end) = span_of(entries, column, divisor);
        let reaches = reaches_of(alloc, &entries[first..end], column, divisor, tolerance)?;
        Ok(Asked { first, reaches })
    }

    /// The same for the masses of members. Few members are compared with their peaks one by one, which costs less than
    /// a column of them.
    pub(crate) fn about(
        alloc: Global,
        entries: &[Entry],
        members: &[Predicted],
        divisor: u32,
        tolerance: Tolerance,
    ) -> Result<Asked, AllocError>
        requires terms { AreTerms divisor tolerance }
        requires measured { Each (λ e. AreMeasured e.mz tolerance divisor) entries.now }
        requires members { All IsPredicted members.now }
        ensures { IfOk result (AreAsked entries.now (map (λ m. unsigned_abs m.mass) members.now) divisor tolerance) }
    {
        if members.len() <= FEW_MEMBERS {
            return Ok(Asked::none(alloc));
        }
        let column = column_of(alloc, members)?;
        Asked::of(alloc, entries, &column, divisor, tolerance)
    }

    /// What is known of the peak of an entry; nothing where it wasn't asked.
    pub(crate) fn get(&self, index: usize) -> Option<Option<Window>>
        ensures { IfSome result (IsReachAt self.now index) }
    {
        if index < self.first {
            return None;
        }
        self.reaches.get(index - self.first).copied()
    }
}

/// The mass of a member without its sign.
pub(crate) fn mass_of(member: Predicted) -> u64
    requires { IsPredicted member }
    ensures mass { result ≡ unsigned_abs member.mass }
    ensures is { pos result ≡ member.mass }
    ensures some { 1 ≤ result }
    ensures in_range { result ≤ MAX_ION_MASS }
{
    member.mass as u64
}

/// The masses of members without their sign.
fn column_of(alloc: Global, members: &[Predicted]) -> Result<Vec<u64>, AllocError>
    requires { All IsPredicted members.now }
    ensures { IfOk result (λ column. column.items ≡ map (λ m. unsigned_abs m.mass) members.now) }
{
    let mut column = Vec::with_capacity(alloc, members.len())?;
    for member in members {
        column.push(mass_of(*member))?;
    }
    Ok(column)
}

/// The first and the end of the entries from the one next below the least mass to the one next above the greatest.
fn span_of(entries: &[Entry], column: &[u64], divisor: u32) -> (usize, usize)
    requires { 1 ≤ divisor }
    ensures in_order { result.0 ≤ result.1 }
    ensures within { result.1 ≤ length entries.now }
{
    let mut least = u64::MAX;
    let mut greatest = 0;
    for mass in column {
        least = least.min(*mass);
        greatest = greatest.max(*mass);
    }
    let (low, high) = (least / u64::from(divisor), greatest / u64::from(divisor));
    let first = entries.partition_point(|entry| entry.mz <= low);
    let end = entries.partition_point(|entry| entry.mz <= high);
    let end = entries.len().min(end.saturating_add(1));
    (first.saturating_sub(1).min(end), end)
}

/// The windows of entries, each where it has a mass of the column.
fn reaches_of(
    alloc: Global,
    entries: &[Entry],
    column: &[u64],
    divisor: u32,
    tolerance: Tolerance,
) -> Result<Vec<Option<Window>>, AllocError>
    requires measured { Each (λ e. AreMeasured e.mz tolerance divisor) entries.now }
    ensures { IfOk result (λ reaches. AreReaches entries.now column.now divisor tolerance reaches.items) }
{
    let mut reaches = Vec::with_capacity(alloc, entries.len())?;
    for entry in entries {
        reaches.push(reach_of(entry.mz, column, divisor, tolerance))?;
    }
    Ok(reaches)
}

/// The window of the masses within tolerance of a peak, where one of a column is among them.
fn reach_of(mz: u64, column: &[u64], divisor: u32, tolerance: Tolerance) -> Option<Window>
    requires { AreMeasured mz tolerance divisor }
    ensures { IsReach column.now mz divisor tolerance result }
{
    let ion = Charged {
        copies: 1,
        divisor,
        shift: 0,
    };
    let Some(window) = window_of(mz, tolerance, ion) else {
        return None;
    };
    if count_between(column, window.lo, window.hi) == 0 {
        return None;
    }
    Some(window)
}
