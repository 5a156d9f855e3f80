//! The order of the members of a claim, and what is found by it.

ghost use Rattle.std.specs.Prelude.{◌≡◌, ◌<◌, None, length, not};
ghost use Rattle.std.specs.Ordering.{nat_cmp, ordering_then};
ghost use Rattle.std.specs.Cmp.Lexicographic.{slice_cmp};
ghost use Rattle.isotopologue_sets.specs.Layers.{lo_of};
ghost use Rattle.isotopologue_sets.specs.Covers.{stands_before};
ghost use Rattle.multinomial_bounds.specs.Isotopologue.{IsIsotopologue};
ghost use Rattle.cover_claims.specs.CountsInRow.{isotopes_of_all, counts_by_element};
ghost use Rattle.cover_claims.specs.Claims.{isotopologues_in, member_at, is_member, first_misplaced};

use crate::members::ClaimedMembers;
use std::cmp::Ordering;

/// The place of the first member that doesn't come after the one before it.
pub(crate) fn first_misplaced(claimed: &ClaimedMembers) -> Option<usize>
    ensures { result ≡ first_misplaced claimed.now.elements (isotopologues_in claimed.now.members) }
{
    for place in 1..claimed.len() {
        let lo = claimed.enclosure(place).lo;
        if compare(claimed, place - 1, lo, claimed.row(place)) != Ordering::Less {
            return Some(place);
        }
    }
    None
}

/// Whether an isotopologue, by its lower bound and its counts, is one of the members, which stand in order.
pub(crate) fn is_member(claimed: &ClaimedMembers, lo: u64, counts: &[u32]) -> bool
    requires in_order { first_misplaced claimed.now.elements (isotopologues_in claimed.now.members) ≡ None }
    requires bound { lo ≡ lo_of claimed.now.elements (counts_by_element claimed.now.elements counts.now) }
    requires places { length counts.now ≡ isotopes_of_all claimed.now.elements }
    ensures { result ≡ is_member (isotopologues_in claimed.now.members) (counts_by_element claimed.now.elements counts.now) }
{
    let mut low = 0;
    let mut high = claimed.len();
    while low < high {
        let middle = low + (high - low) / 2;
        match compare(claimed, middle, lo, counts) {
            Ordering::Less => low = middle + 1,
            Ordering::Equal => return true,
            Ordering::Greater => high = middle,
        }
    }
    false
}

/// How the member at a place stands to an isotopologue: by falling lower bound, ties by the counts.
fn compare(claimed: &ClaimedMembers, place: usize, lo: u64, counts: &[u32]) -> Ordering
    requires within { place < length claimed.now.members }
    requires places { length counts.now ≡ isotopes_of_all claimed.now.elements }
    ensures { result ≡
        let member = member_at (isotopologues_in claimed.now.members) place in
        ordering_then (nat_cmp lo (lo_of claimed.now.elements member))
        (slice_cmp (slice_cmp nat_cmp) member (counts_by_element claimed.now.elements counts.now)) }
{
    match lo.cmp(&claimed.enclosure(place).lo) {
        Ordering::Equal => claimed.row(place).cmp(counts),
        unequal => unequal,
    }
}
