//! What the members of a claim have together.

ghost use Rattle.std.specs.Prelude.{◌≡◌, ◌+◌, ◌-◌, ◌*◌, IfOk, length, sum, take};
ghost use Rattle.isotopologue_sets.specs.Layers.{lo_total};
ghost use Rattle.isotopologue_neighbours.specs.Closed.{greatest_above, greatest_total};
ghost use Rattle.cover_claims.specs.Claims.{isotopologues_in, marked_in};

use crate::members::ClaimedMembers;
use std::alloc::{AllocError, Global};
use std::cmp::Reverse;

/// How many members are marked.
pub(crate) fn marked_count(claimed: &ClaimedMembers) -> u64
    ensures { result ≡ length (marked_in claimed.now.members) }
{
    let mut count = 0;
    for place in 0..claimed.len() {
        if claimed.is_marked(place) {
            count += 1;
        }
    }
    count
}

/// The total of the lower bounds of the marked members.
pub(crate) fn marked_total(claimed: &ClaimedMembers) -> u128
    ensures { result ≡ lo_total claimed.now.elements (marked_in claimed.now.members) }
{
    let mut total: u128 = 0;
    for place in 0..claimed.len() {
        if claimed.is_marked(place) {
            total += u128::from(claimed.enclosure(place).lo);
        }
    }
    total
}

/// The total of so many of the greatest upper bounds above the threshold, with the threshold for each that is missing.
pub(crate) fn greatest_total(
    alloc: Global,
    claimed: &ClaimedMembers,
    threshold: u64,
    number: u64,
) -> Result<u128, AllocError>
    ensures { IfOk result (λ total. total
        ≡ greatest_total claimed.now.elements threshold (isotopologues_in claimed.now.members) number) }
{
    let greatest = greatest_above(alloc, claimed, threshold)?;
    Ok(total_of_first(&greatest, threshold, number))
}

/// The upper bounds above the threshold, the greatest first.
fn greatest_above(
    alloc: Global,
    claimed: &ClaimedMembers,
    threshold: u64,
) -> Result<Vec<u64>, AllocError>
    ensures { IfOk result (λ bounds. bounds.items
        ≡ greatest_above claimed.now.elements threshold (isotopologues_in claimed.now.members)) }
{
    let mut bounds = Vec::new(alloc);
    for place in 0..claimed.len() {
        let hi = claimed.enclosure(place).hi;
        if hi > threshold {
            bounds.push(hi)?;
        }
    }
    bounds.sort_unstable_by_key(|bound| Reverse(*bound));
    Ok(bounds)
}

/// The total of the first so many of the bounds, with the threshold for each that is missing.
fn total_of_first(bounds: &[u64], threshold: u64, number: u64) -> u128
    ensures { result ≡ sum (take number bounds.now) + (number - length bounds.now) * threshold }
{
    let mut total: u128 = 0;
    let mut left = number;
    for bound in bounds {
        if left == 0 {
            return total;
        }
        total += u128::from(*bound);
        left -= 1;
    }
    total + u128::from(left) * u128::from(threshold)
}
