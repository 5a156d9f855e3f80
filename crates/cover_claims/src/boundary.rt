//! The neighbours of members that a claim left out.

ghost use Rattle.std.specs.Prelude.{◌≡◌, ◌+◌, ◌-◌, ◌<◌, ◌≤◌, ◌≢◌, ◌∷◌, ◌++◌, [], None, All, IfOk, OnOk, List, ℕ};
ghost use Rattle.std.specs.Prelude.{length, map, filter, find, not, ◌==◌, slice_index, slice_set, sum};
ghost use Rattle.multinomial_bounds.specs.Bounds.{floor_of, ceiling_of, product_of};
ghost use Rattle.multinomial_bounds.specs.Weight.{IsCounts};
ghost use Rattle.multinomial_bounds.specs.Isotopologue.{bounds_of};
ghost use Rattle.isotopologue_neighbours.specs.Moves.{moved, takers, counts_moved, neighbours_of};
ghost use Rattle.cover_claims.specs.Claims.{isotopologues_in, member_at, first_misplaced, is_left_out, boundary_fault};
ghost use Rattle.cover_claims.specs.Surroundings.{IsAround, as_row, left_out_among};

use crate::enclosures::{parts_of, product_of};
use crate::fault::{ClaimFault, IsotopeCounts};
use crate::members::ClaimedMembers;
use crate::order::is_member;
use multinomial_bounds::Enclosure;
use std::alloc::{AllocError, Global};

/// The first neighbour of a member that was left out, of a claim whose members stand in order.
pub(crate) fn boundary_fault(
    alloc: Global,
    claimed: &ClaimedMembers,
    threshold: u64,
) -> Result<Option<ClaimFault>, AllocError>
    requires in_order { first_misplaced claimed.now.elements (isotopologues_in claimed.now.members) ≡ None }
    ensures { IfOk result (λ fault.
        fault ≡ boundary_fault claimed.now.elements threshold (isotopologues_in claimed.now.members)) }
{
    for place in 0..claimed.len() {
        if let Some((neighbour, hi)) = left_out_of(alloc, claimed, threshold, place)? {
            return Ok(Some(ClaimFault::OpenBoundary {
                place,
                neighbour,
                hi,
            }));
        }
    }
    Ok(None)
}

/// The first neighbour of the member at a place that was left out, with its upper bound.
fn left_out_of(
    alloc: Global,
    claimed: &ClaimedMembers,
    threshold: u64,
    place: usize,
) -> Result<Option<(IsotopeCounts, u64)>, AllocError>
    requires in_order { first_misplaced claimed.now.elements (isotopologues_in claimed.now.members) ≡ None }
    requires within { place < length claimed.now.members }
    ensures { IfOk result (λ found. found ≡ as_row claimed.now.elements (find
        (is_left_out claimed.now.elements threshold (isotopologues_in claimed.now.members))
        (neighbours_of (member_at (isotopologues_in claimed.now.members) place)))) }
{
    let row = claimed.row(place);
    let elements = claimed.elements();
    let mut enclosures = parts_of(alloc, elements, row)?;
    let parts = enclosures.as_mut_slice();
    let mut from = 0;
    for element in 0..elements.len() {
        let isotopes = elements[element].isotopes();
        let (before, rest) = row.split_at(from);
        let (own, after) = rest.split_at(isotopes);
        let around = Around {
            place,
            element,
            before,
            own,
            after,
        };
        if let Some(found) = left_out_by(alloc, claimed, threshold, around, parts)? {
            return Ok(Some(found));
        }
        from += own.len();
    }
    Ok(None)
}

/// The counts of the member at a place by one of its elements: those before it, its own, and those behind it.
#[derive(Clone, Copy)]
struct Around<'a> {
    place: usize,
    element: usize,
    before: &'a [u32],
    own: &'a [u32],
    after: &'a [u32],
}

/// The first isotopologue that was left out, by moves of one atom between isotopes of one element.
fn left_out_by(
    alloc: Global,
    claimed: &ClaimedMembers,
    threshold: u64,
    around: Around<'_>,
    parts: &mut [Enclosure],
) -> Result<Option<(IsotopeCounts, u64)>, AllocError>
    requires in_order { first_misplaced claimed.now.elements (isotopologues_in claimed.now.members) ≡ None }
    requires within { around.place < length claimed.now.members }
    requires around { IsAround (member_at (isotopologues_in claimed.now.members) around.place) around.element
        around.before.now around.own.now around.after.now }
    requires lo { map (λ e. e.lo) parts.old ≡ bounds_of floor_of claimed.now.elements
        (member_at (isotopologues_in claimed.now.members) around.place) }
    requires hi { map (λ e. e.hi) parts.old ≡ bounds_of ceiling_of claimed.now.elements
        (member_at (isotopologues_in claimed.now.members) around.place) }
    requires small { All (λ count. count ≤ 10000) around.own.now }
    ensures found { IfOk result (λ found. found ≡ left_out_among claimed.now.elements threshold
        (isotopologues_in claimed.now.members) (member_at (isotopologues_in claimed.now.members) around.entry.place)
        around.entry.element (counts_moved around.entry.own.now)) }
    ensures parts { parts.new ≡ parts.old }
{
    let mut counts = around.own.to_vec(alloc)?;
    let changed = counts.as_mut_slice();
    for giver in 0..around.own.len() {
        if around.own[giver] > 0 {
            if let Some(found) = left_out_from(
                alloc, claimed, threshold, around, giver, parts, changed,
            )? {
                return Ok(Some(found));
            }
        }
    }
    Ok(None)
}

/// The same, where the atom is of one isotope.
fn left_out_from(
    alloc: Global,
    claimed: &ClaimedMembers,
    threshold: u64,
    around: Around<'_>,
    giver: usize,
    parts: &mut [Enclosure],
    changed: &mut [u32],
) -> Result<Option<(IsotopeCounts, u64)>, AllocError>
    requires in_order { first_misplaced claimed.now.elements (isotopologues_in claimed.now.members) ≡ None }
    requires within { around.place < length claimed.now.members }
    requires around { IsAround (member_at (isotopologues_in claimed.now.members) around.place) around.element
        around.before.now around.own.now around.after.now }
    requires lo { map (λ e. e.lo) parts.old ≡ bounds_of floor_of claimed.now.elements
        (member_at (isotopologues_in claimed.now.members) around.place) }
    requires hi { map (λ e. e.hi) parts.old ≡ bounds_of ceiling_of claimed.now.elements
        (member_at (isotopologues_in claimed.now.members) around.place) }
    requires small { All (λ count. count ≤ 10000) around.own.now }
    requires gives { giver < length around.own.now }
    requires has_atom { 1 ≤ slice_index around.own.now giver }
    requires room { length changed.old ≡ length around.own.now }
    ensures found { IfOk result (λ found. found ≡ left_out_among claimed.now.elements threshold
        (isotopologues_in claimed.now.members) (member_at (isotopologues_in claimed.now.members) around.entry.place)
        around.entry.element (map (moved around.entry.own.now giver) (takers around.entry.own.now giver))) }
    ensures parts { parts.new ≡ parts.old }
    ensures room { length changed.new ≡ length changed.old }
{
    for taker in 0..around.own.len() {
        if taker != giver {
            write_moved(around.own, giver, taker, changed);
            if let Some(found) = left_out_with(alloc, claimed, threshold, around, changed, parts)? {
                return Ok(Some(found));
            }
        }
    }
    Ok(None)
}

/// Writes the counts after a move of one atom.
fn write_moved(counts: &[u32], giver: usize, taker: usize, changed: &mut [u32])
    requires gives { giver < length counts.now }
    requires takes { taker < length counts.now }
    requires apart { giver ≢ taker }
    requires has_atom { 1 ≤ slice_index counts.now giver }
    requires small { All (λ count. count ≤ 10000) counts.now }
    requires room { length changed.old ≡ length counts.now }
    ensures { changed.new ≡ moved counts.now giver taker }
{
    changed.copy_from_slice(counts);
    changed[giver] -= 1;
    changed[taker] += 1;
}

/// The member with other counts of the element, if that isotopologue was left out.
fn left_out_with(
    alloc: Global,
    claimed: &ClaimedMembers,
    threshold: u64,
    around: Around<'_>,
    counts: &[u32],
    parts: &mut [Enclosure],
) -> Result<Option<(IsotopeCounts, u64)>, AllocError>
    requires in_order { first_misplaced claimed.now.elements (isotopologues_in claimed.now.members) ≡ None }
    requires within { around.place < length claimed.now.members }
    requires around { IsAround (member_at (isotopologues_in claimed.now.members) around.place) around.element
        around.before.now around.own.now around.after.now }
    requires lo { map (λ e. e.lo) parts.old ≡ bounds_of floor_of claimed.now.elements
        (member_at (isotopologues_in claimed.now.members) around.place) }
    requires hi { map (λ e. e.hi) parts.old ≡ bounds_of ceiling_of claimed.now.elements
        (member_at (isotopologues_in claimed.now.members) around.place) }
    requires places { length counts.now ≡ length around.own.now }
    requires atoms { sum counts.now ≡ sum around.own.now }
    ensures found { IfOk result (λ found. found ≡ left_out_among claimed.now.elements threshold
        (isotopologues_in claimed.now.members) (member_at (isotopologues_in claimed.now.members) around.entry.place)
        around.entry.element (counts.now ∷ [])) }
    ensures parts { parts.new ≡ parts.old }
{
    let element = &claimed.elements()[around.element];
    let changed = element.enclosure(alloc, counts)?;
    let whole = product_with(parts, around.element, changed);
    if whole.hi <= threshold {
        return Ok(None);
    }
    let row = joined(alloc, around.before, counts, around.after)?;
    if is_member(claimed, whole.lo, &row) {
        return Ok(None);
    }
    Ok(Some((IsotopeCounts { counts: row }, whole.hi)))
}

/// The product of the enclosures of all elements, with another one in the place of one.
fn product_with(parts: &mut [Enclosure], element: usize, changed: Enclosure) -> Enclosure
    requires { element < length parts.old }
    ensures lo { result.lo ≡ product_of floor_of (slice_set (map (λ e. e.lo) parts.old) element changed.lo) }
    ensures hi { result.hi ≡ product_of ceiling_of (slice_set (map (λ e. e.hi) parts.old) element changed.hi) }
    ensures same { parts.new ≡ parts.old }
{
    let own = parts[element];
    parts[element] = changed;
    let product = product_of(parts);
    parts[element] = own;
    product
}

/// Counts end to end.
fn joined(alloc: Global, before: &[u32], own: &[u32], after: &[u32]) -> Result<Vec<u32>, AllocError>
    ensures { IfOk result (λ row. row.items ≡ before.now ++ own.now ++ after.now) }
{
    let mut row = before.to_vec(alloc)?;
    row.extend_from_slice(own)?;
    row.extend_from_slice(after)?;
    Ok(row)
}
