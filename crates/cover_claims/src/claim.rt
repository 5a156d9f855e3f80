//! What a claim says, and the test of it.

ghost use Rattle.std.specs.Prelude.{◌≡◌, None, All, IfOk};
ghost use Rattle.std.specs.List.{concat};
ghost use Rattle.multinomial_bounds.specs.Isotopologue.{IsIsotopologue};
ghost use Rattle.isotopologue_sets.specs.Layers.{AreElements, mode_of_each};
ghost use Rattle.cover_claims.specs.Claims.{isotopologues_in, is_member, first_misplaced, claim_fault};
ghost use Rattle.cover_claims.specs.ClaimMeaning.{IsTrueClaim};

use crate::boundary::boundary_fault;
use crate::element::ClaimElement;
use crate::enclosures::enclosure_of;
use crate::fault::ClaimFault;
use crate::members::ClaimedMembers;
use crate::order::{first_misplaced, is_member};
use crate::totals::{greatest_total, marked_count, marked_total};
use std::alloc::{AllocError, Global};

/// What is claimed of isotopologues: that the marked ones have the coverage and are `size` in number, that no set with
/// fewer of them than `bound` has it, and that what isn't listed has an upper bound of at most the threshold. Coverage
/// and threshold are in units of 10^-18.
#[derive(Clone, Copy, Debug, PartialEq, Eq)]
pub struct ClaimNumbers {
    pub coverage: u64,
    pub size: u64,
    pub bound: u64,
    pub threshold: u64,
}

/// The first test that a claim fails, `None` exactly where it fails none; it is then true, whoever made it. Time is in
/// proportion to the neighbours of the members, times the logarithm of the number of members; the only error is want of
/// memory.
pub fn claim_fault(
    alloc: Global,
    claimed: &ClaimedMembers,
    claim: ClaimNumbers,
) -> Result<Option<ClaimFault>, AllocError>
    ensures fault { IfOk result (λ fault. fault ≡ claim_fault claimed.now claim) }
    ensures sound { IfOk result (λ fault. fault ≡ None → IsTrueClaim claimed.now claim) }
{
    if let Some(place) = first_misplaced(claimed) {
        return Ok(Some(ClaimFault::OutOfOrder { place }));
    }
    if !has_mode(alloc, claimed)? {
        return Ok(Some(ClaimFault::ModeAbsent));
    }
    if let Some(fault) = boundary_fault(alloc, claimed, claim.threshold)? {
        return Ok(Some(fault));
    }
    let found = marked_count(claimed);
    if found != claim.size {
        return Ok(Some(ClaimFault::SizeDiffers { found }));
    }
    let covered = marked_total(claimed);
    if covered < u128::from(claim.coverage) {
        return Ok(Some(ClaimFault::CoverShort { total: covered }));
    }
    if claim.bound == 0 {
        return Ok(None);
    }
    let total = greatest_total(alloc, claimed, claim.threshold, claim.bound - 1)?;
    if total >= u128::from(claim.coverage) {
        return Ok(Some(ClaimFault::BoundTooHigh { total }));
    }
    Ok(None)
}

/// Whether the isotopologue of all modes is a member.
fn has_mode(alloc: Global, claimed: &ClaimedMembers) -> Result<bool, AllocError>
    requires in_order { first_misplaced claimed.now.elements (isotopologues_in claimed.now.members) ≡ None }
    ensures value { IfOk result (λ has.
        has ≡ is_member (isotopologues_in claimed.now.members) (mode_of_each claimed.now.elements)) }
    ensures within_limits { AreElements claimed.now.elements }
    ensures isotopologues { All (IsIsotopologue claimed.now.elements) (isotopologues_in claimed.now.members) }
{
    let elements = claimed.elements();
    let row = mode_row(alloc, elements)?;
    let enclosure = enclosure_of(alloc, elements, &row)?;
    Ok(is_member(claimed, enclosure.lo, &row))
}

/// The counts of all modes, one element after another.
fn mode_row(alloc: Global, elements: &[ClaimElement]) -> Result<Vec<u32>, AllocError>
    ensures { IfOk result (λ row. row.items ≡ concat (mode_of_each elements.now)) }
{
    let mut row = Vec::new(alloc);
    for element in elements {
        row.extend_from_slice(element.mode())?;
    }
    Ok(row)
}
