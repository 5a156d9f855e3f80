//! The peaks that got a member, and the total of the members at each.
ghost use Rattle.std.specs.Prelude.{◌≡◌, ◌++◌, ◌∷◌, [], ◌≤◌, ◌+◌, ◌<◌, ◌^◌, ℕ, List, IfSome, IfOk, OnOk, length};
ghost use Rattle.std.specs.Prelude.{sum_by};
ghost use Rattle.prediction_score.specs.PeakOrders.{AreShares, IsRisingBy, IsSplit};
ghost use Rattle.prediction_score.specs.Scores.{ArePredicted, AreTerms, Match, matches_of};

use crate::columns::{Asked, mass_of};
use crate::order::{PeakOrder, place_of};
use crate::predicted::Predicted;
use mass_scaling::Tolerance;
use std::alloc::{AllocError, Global};

/// The `lo` totals of members, in 10^-18, by the peaks that they go to.
#[derive(Drop)]
pub(crate) struct Shares {
    /// The total of the members without a peak.
    pub(crate) unmatched: u64,
    /// The total of the members with a peak.
    pub(crate) matched: u64,
    /// The totals of the peaks that got a member, by rising place.
    pub(crate) totals: Vec<Total>,
}

/// The `lo` total of the members at the peak at a place.
#[derive(Clone, Copy)]
pub(crate) struct Total {
    pub(crate) place: usize,
    pub(crate) lo: u64,
}

/// The totals of the members of a prediction.
pub(crate) fn shares_of(
    alloc: Global,
    order: &PeakOrder<'_>,
    members: &[Predicted],
    divisor: u32,
    tolerance: Tolerance,
) -> Result<Shares, AllocError>
    requires terms { AreTerms divisor tolerance }
    requires members { ArePredicted members.now }
    ensures { IfOk result (AreShares (length order.now) (matches_of order.now divisor tolerance members.now)) }
{
    let mut shares = Shares {
        unmatched: 0,
        matched: 0,
        totals: Vec::new(alloc),
    };
    let entries = order.entries.as_slice();
    let asked = Asked::about(alloc, entries, members, divisor, tolerance)?;
    for member in members {
        let mass = mass_of(*member);
        let place = place_of(entries, &asked, mass, divisor, tolerance);
        add_member(&mut shares, place, member.lo)?;
    }
    Ok(shares)
}

/// Adds a member's `lo` to the total of its peak, or of the members without one.
fn add_member(shares: &mut Shares, place: Option<usize>, lo: u64) -> Result<(), AllocError>
    requires rising { IsRisingBy (λ t. t.place) shares.old.totals.items }
    requires matched { shares.old.matched ≡ sum_by (λ t. t.lo) shares.old.totals.items }
    requires room { shares.old.unmatched + shares.old.matched + lo < 2 ^ 64 }
    ensures { OnOk result ((peak_count : ℕ) (matches : List Match) → AreShares peak_count matches shares.old
        → IfSome place (λ p. p < peak_count) → AreShares peak_count (matches ++ (place, lo) ∷ []) shares.new) }
{
    match place {
        None => shares.unmatched += lo,
        Some(place) => {
            let index = lower_totals(&shares.totals, place);
            if index < shares.totals.len() && shares.totals[index].place == place {
                shares.totals[index].lo += lo;
            } else {
                shares.totals.insert(index, Total { place, lo })?;
            }
            shares.matched += lo;
        }
    }
    Ok(())
}

/// How many totals are of a peak at a place below this one.
fn lower_totals(totals: &[Total], place: usize) -> usize
    requires { IsRisingBy (λ t. t.place) totals.now }
    ensures { IsSplit (λ t. t.place) totals.now place result }
{
    totals.partition_point(|total| total.place < place)
}
