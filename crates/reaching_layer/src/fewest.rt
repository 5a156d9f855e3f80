//! How many bounds, from the first on, total a wanted coverage, and what those of a layer total.

ghost use Rattle.std.specs.Prelude.{◌≡◌, filter, length, nat_lt, sum, sum_by, take};
ghost use Rattle.isotopologue_sets.specs.Covers.{fewest};

use layered_envelope::MemberRow;

/// The least number of bounds, from the first on, that total at least the coverage, and the number of all where
/// even these don't.
pub(crate) fn fewest(bounds: &[u64], coverage: u64) -> usize
    ensures { result ≡ fewest (λ n. sum (take n bounds.now)) coverage (length bounds.now) }
{
    let wanted = u128::from(coverage);
    let mut total: u128 = 0;
    for (count, bound) in bounds.iter().enumerate() {
        if total >= wanted {
            return count;
        }
        total += u128::from(*bound);
    }
    bounds.len()
}

/// The least number of rows, from the first on, whose lower bounds total at least the coverage, and the number of all
/// where even these don't.
pub(crate) fn fewest_lower(rows: &[MemberRow], coverage: u64) -> usize
    ensures { result ≡ fewest (λ n. sum_by (λ r. r.enclosure.lo) (take n rows.now)) coverage (length rows.now) }
{
    let wanted = u128::from(coverage);
    let mut total: u128 = 0;
    for (count, row) in rows.iter().enumerate() {
        if total >= wanted {
            return count;
        }
        total += u128::from(row.enclosure.lo);
    }
    rows.len()
}

/// What the lower bounds of the rows total whose upper bound is above a threshold.
pub(crate) fn lower_total_above(rows: &[MemberRow], threshold: u64) -> u128
    ensures { result ≡ sum_by (λ r. r.enclosure.lo) (filter (λ r. nat_lt threshold r.enclosure.hi) rows.now) }
{
    let mut total: u128 = 0;
    for row in rows {
        if row.enclosure.hi > threshold {
            total += u128::from(row.enclosure.lo);
        }
    }
    total
}
