//! The row of one level, and its probes.
ghost use Rattle.std.specs.Prelude.{◌≡◌, ℕ, ◌+◌, ◌*◌, ◌/◌, ◌^◌, ◌<◌, ◌≤◌, ◌↔◌, length, slice_index, IsTrue, IsNone, IfSome, IfOk, EachIndex};
ghost use Rattle.std.specs.Bool.{OnTrue, OnFalse};
ghost use Rattle.residue_table.specs.Sums.{IsLeastIn, HoldsNowhereIn, HoldsSomewhereIn};
ghost use Rattle.residue_table.specs.Rows.{AreRunMinima, BoundsRuns};

use crate::spans::{Spans, spans_of};
use lane_scan::first_reached;
use std::alloc::{AllocError, Global};

/// The entry of a residue that isn't reached. No number that is asked for comes up to it.
pub(crate) const UNREACHED: u64 = 1 << 63;

/// How many entries have one minimum, and how many of these minima have one again.
pub(crate) const RUN: usize = 16;

/// The row of a level: for each residue of the modulus the least number that the level reaches. Beside it stand the
/// minima of runs of entries and those of groups of runs, by which a probe passes over what reaches nothing.
#[derive(Debug, Drop)]
pub(crate) struct Row {
    pub(crate) entries: Vec<u64>,
    pub(crate) minima: Vec<u64>,
    pub(crate) group_minima: Vec<u64>,
    /// The minima of spans of runs, by which most probes tell at once whether anything is reached.
    pub(crate) spans: Vec<Spans>,
}

impl Row {
    ghost use Rattle.residue_table.specs.Rows.{IsFirstPlace, IsIndexed, IsLeastOf, IsReached, IsSomeReached, NoneReached};

    /// The row of these entries.
    pub(crate) fn of(alloc: Global, entries: Vec<u64>) -> Result<Row, AllocError>
        requires some { 1 ≤ length entries.items }
        requires from_zero { slice_index entries.items 0 ≡ 0 }
        ensures entries { IfOk result (λ row. row.entries.items ≡ entries.items) }
        ensures indexed { IfOk result IsIndexed }
    {
        let minima = minima_of(alloc, &entries)?;
        let group_minima = minima_of(alloc, &minima)?;
        let spans = spans_of(alloc, &minima)?;
        Ok(Row {
            entries,
            minima,
            group_minima,
            spans,
        })
    }

    /// Whether the level reaches a number.
    pub(crate) fn reaches(&self, value: u64) -> bool
        requires { IsIndexed self.now }
        ensures { IsTrue result ↔ IsReached self.now.entries.items value }
    {
        let residue = value % self.entries.len() as u64;
        self.entries[residue as usize] <= value
    }

    /// The least number from `lo` to `hi` that the level reaches. A multiple of the modulus is always reached, so
    /// that at most the numbers up to the next one are looked at.
    pub(crate) fn first_in(&self, lo: u64, hi: u64) -> Option<u64>
        requires indexed { IsIndexed self.now }
        requires ordered { lo ≤ hi }
        requires range { hi < 2 ^ 63 }
        requires modulus { length self.now.entries.items ≤ 2 ^ 62 }
        ensures least { IfSome result (IsLeastIn (IsReached self.now.entries.items) lo hi) }
        ensures none { IsNone result → HoldsNowhereIn (IsReached self.now.entries.items) lo hi }
    {
        let modulus = self.entries.len() as u64;
        let residue = lo % modulus;
        let to_multiple = modulus - residue;
        let number = (hi - lo + 1).min(to_multiple);
        let start = residue as usize;
        match self.first_between(start, start + number as usize, lo) {
            Some(place) => Some(lo + (place - start) as u64),
            None if to_multiple <= hi - lo => Some(lo + to_multiple),
            None => None,
        }
    }

    /// Whether the level reaches a number from `lo` to `hi`.
    ///
    /// Most entries are far below or above the range, so the minima of spans nearly always tell.
    pub(crate) fn reaches_in(&self, lo: u64, hi: u64) -> bool
        requires indexed { IsIndexed self.now }
        requires ordered { lo ≤ hi }
        requires range { hi < 2 ^ 63 }
        requires modulus { length self.now.entries.items ≤ 2 ^ 62 }
        ensures { IsTrue result ↔ HoldsSomewhereIn (IsReached self.now.entries.items) lo hi }
    {
        let modulus = self.entries.len() as u64;
        let residue = lo % modulus;
        if modulus - residue <= hi - lo {
            return true;
        }
        let start = residue as usize;
        self.reaches_between(start, start + (hi - lo) as usize, lo)
    }

    /// Whether a number of the places from `start` to `last` is reached; that of `start` is `from`.
    fn reaches_between(&self, start: usize, last: usize, from: u64) -> bool
        requires indexed { IsIndexed self.now }
        requires ordered { start ≤ last }
        requires within { last < length self.now.entries.items }
        requires range { from + 2 * length self.now.entries.items < 2 ^ 64 }
        ensures some { OnTrue result (IsSomeReached self.now.entries.items start (last + 1) from) }
        ensures none { OnFalse result (NoneReached self.now.entries.items start (last + 1) from) }
    {
        if self.has_none_to(start, last, from + (last - start) as u64) {
            return false;
        }
        self.has_some_to(start, last, from) || self.first_between(start, last + 1, from).is_some()
    }

    /// Whether the spans tell that no entry from `start` to `last` is at most `highest`.
    fn has_none_to(&self, start: usize, last: usize, highest: u64) -> bool
        requires indexed { IsIndexed self.now }
        requires ordered { start ≤ last }
        requires within { last < length self.now.entries.items }
        ensures { OnTrue result ((k : ℕ) → start ≤ k → k ≤ last → highest < slice_index self.now.entries.items k) }
    {
        match self.least_of_runs(start / RUN, last / RUN + 1) {
            Some(least) => highest < least,
            None => false,
        }
    }

    /// Whether the spans tell that an entry from `start` to `last` is at most `limit`.
    fn has_some_to(&self, start: usize, last: usize, limit: u64) -> bool
        requires indexed { IsIndexed self.now }
        requires ordered { start ≤ last }
        requires within { last < length self.now.entries.items }
        ensures { OnTrue result ((place : ℕ) × (start ≤ place) × (place ≤ last)
            × (slice_index self.now.entries.items place ≤ limit)) }
    {
        let first = start.div_ceil(RUN);
        let stop = (last + 1) / RUN;
        if stop <= first {
            return false;
        }
        match self.least_of_runs(first, stop) {
            Some(least) => least <= limit,
            None => false,
        }
    }

    /// The least entry of the runs from `start` on and before `stop`; None where no spans are long enough.
    fn least_of_runs(&self, start: usize, stop: usize) -> Option<u64>
        requires indexed { IsIndexed self.now }
        requires some { start < stop }
        requires within { stop ≤ length self.now.minima.items }
        ensures { IfSome result (IsLeastOf self.now.entries.items (start * RUN) (stop * RUN)) }
    {
        let power = (stop - start).ilog2();
        let longest = self.spans.get(power as usize)?;
        let last = stop - (1 << power);
        Some(longest.minima[start].min(longest.minima[last]))
    }

    /// The first place from `start` on and before `end` whose number is reached; that of `start` is `from`.
    fn first_between(&self, start: usize, end: usize, from: u64) -> Option<usize>
        requires indexed { IsIndexed self.now }
        requires ordered { start ≤ end }
        requires within { end ≤ length self.now.entries.items }
        requires range { from + 2 * length self.now.entries.items < 2 ^ 64 }
        ensures first { IfSome result (IsFirstPlace self.now.entries.items start end from) }
        ensures none { IsNone result → NoneReached self.now.entries.items start end from }
    {
        let highest = from + (end - start) as u64;
        let mut at = start;
        while at < end {
            let run = self.next_run(at, end, highest)?;
            let first = at.max(run * RUN);
            let stop = end.min(run * RUN + RUN);
            let number = from + (first - start) as u64;
            match first_reached(&self.entries[first..stop], number) {
                Some(before) => return Some(first + before),
                None => at = stop,
            }
        }
        None
    }

    /// The first run, from that of the place `at` on, that may have an entry of at most `highest` before `end`.
    fn next_run(&self, at: usize, end: usize, highest: u64) -> Option<usize>
        requires indexed { IsIndexed self.now }
        requires ordered { at < end }
        requires within { end ≤ length self.now.entries.items }
        requires range { highest + length self.now.entries.items < 2 ^ 64 }
        ensures not_before { IfSome result (λ run. at < run * RUN + RUN) }
        ensures not_after { IfSome result (λ run. run * RUN < end) }
        ensures passed { IfSome result (λ run. (k : ℕ) → at ≤ k → k < run * RUN →
            highest < slice_index self.now.entries.items k) }
        ensures none { IsNone result → (k : ℕ) → at ≤ k → k < end → highest < slice_index self.now.entries.items k }
    {
        let stop = (end - 1) / RUN + 1;
        let mut run = at / RUN;
        while run < stop {
            let group = self.next_group(run / RUN, (stop - 1) / RUN + 1, highest)?;
            let first = run.max(group * RUN);
            let next = stop.min(group * RUN + RUN);
            match first_reached(&self.minima[first..next], highest) {
                Some(before) => return Some(first + before),
                None => run = next,
            }
        }
        None
    }

    /// The first group of runs from `from` on and before `stop` that may have an entry of at most `highest`.
    fn next_group(&self, from: usize, stop: usize, highest: u64) -> Option<usize>
        requires { stop ≤ length self.now.group_minima.items }
        ensures within { IfSome result (λ group. (from ≤ group) × (group < stop)) }
        ensures passed { IfSome result (λ group. (k : ℕ) → from ≤ k → k < group →
            highest < slice_index self.now.group_minima.items k) }
        ensures none { IsNone result → (k : ℕ) → from ≤ k → k < stop →
            highest < slice_index self.now.group_minima.items k }
    {
        for group in from..stop {
            if self.group_minima[group] <= highest {
                return Some(group);
            }
        }
        None
    }
}

/// The minima of the runs of some numbers.
fn minima_of(alloc: Global, numbers: &[u64]) -> Result<Vec<u64>, AllocError>
    ensures runs { IfOk result (λ minima. length numbers.now ≤ RUN * length minima.items) }
    ensures bounds { IfOk result (λ minima. BoundsRuns minima.items numbers.now) }
    ensures least { IfOk result (λ minima. AreRunMinima numbers.now 1 minima.items) }
{
    let mut minima = Vec::new(alloc);
    for run in 0..numbers.len().div_ceil(RUN) {
        let start = run * RUN;
        let stop = numbers.len().min(start + RUN);
        minima.push(least_of(&numbers[start..stop]))?;
    }
    Ok(minima)
}

/// The least of some numbers, and 0 of none.
fn least_of(numbers: &[u64]) -> u64
    ensures least { EachIndex numbers.now (λ k. result ≤ slice_index numbers.now k) }
    ensures one { 1 ≤ length numbers.now → (k : ℕ) × (k < length numbers.now) × (slice_index numbers.now k ≤ result) }
{
    numbers.iter().copied().min().unwrap_or(0)
}
