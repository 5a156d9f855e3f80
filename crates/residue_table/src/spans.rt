//! The minima of spans: of as many runs on end as a power of two. Any runs on end are two spans, which may overlap, so
//! that their minimum takes two looks.
ghost use Rattle.std.specs.Prelude.{◌≡◌, ℕ, List, ◌+◌, ◌*◌, ◌^◌, ◌<◌, ◌≤◌, length, slice_index, min, if◌then◌else◌, nat_lt};
ghost use Rattle.std.specs.Prelude.{IfOk};
ghost use Rattle.residue_table.specs.Rows.{AreSpans, AreRunMinima};
ghost use Rattle.residue_table.specs.declared.rows.TheConstants.{RUN};

use std::alloc::{AllocError, Global};

/// How many powers of two have spans: those up to 256 runs.
const POWERS: u32 = 9;

/// For each run the minimum of so many runs from it on, as far as there are that many.
#[derive(Debug, Drop)]
pub(crate) struct Spans {
    pub(crate) minima: Vec<u64>,
}

/// The spans of each power of two, of these minima of runs.
pub(crate) fn spans_of(alloc: Global, minima: &[u64]) -> Result<Vec<Spans>, AllocError>
    ensures { IfOk result (λ spans. (entries : List ℕ) → length entries ≤ RUN * length minima.now →
        AreRunMinima entries 1 minima.now → AreSpans entries (length minima.now) spans.items) }
{
    let mut spans = Vec::new(alloc);
    let mut minima = minima.to_vec(alloc)?;
    for power in 0..POWERS {
        let longer = minima_of_longer(alloc, &minima, 1 << power)?;
        spans.push(Spans { minima })?;
        minima = longer;
    }
    Ok(spans)
}

/// The minima of spans twice as long as those of so many runs.
fn minima_of_longer(alloc: Global, minima: &[u64], runs: usize) -> Result<Vec<u64>, AllocError>
    requires { runs ≤ 2 ^ 32 }
    ensures length { IfOk result (λ longer. length longer.items ≡ length minima.now) }
    ensures least { IfOk result (λ longer. (k : ℕ) → k < length minima.now →
        slice_index longer.items k ≡ (if nat_lt (k + runs) (length minima.now)
        then min (slice_index minima.now k) (slice_index minima.now (k + runs))
        else slice_index minima.now k)) }
{
    let mut longer = Vec::new(alloc);
    for run in 0..minima.len() {
        longer.push(least_with(minima, run, run + runs))?;
    }
    Ok(longer)
}

/// The lesser of the minimum at a place and that at a later one, if there is one.
fn least_with(minima: &[u64], place: usize, later: usize) -> u64
    requires { place < length minima.now }
    ensures { result ≡ (if nat_lt later (length minima.now)
        then min (slice_index minima.now place) (slice_index minima.now later)
        else slice_index minima.now place) }
{
    let minimum = minima[place];
    if later < minima.len() {
        minimum.min(minima[later])
    } else {
        minimum
    }
}
