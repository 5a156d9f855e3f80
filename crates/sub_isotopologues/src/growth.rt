//! The search for the counts that a lower threshold adds to a list.
//!
//! An upper bound is at most that of the parent, so all counts above a bound are reached from the mode through counts
//! that are above it too. Those that are added are children of items, or of others that are added.
ghost use Rattle.std.specs.Prelude.{◌≡◌, ◌+◌, ◌++◌, ◌∷◌, [], ◌&&◌, ◌<◌, ◌≤◌, if◌then◌else◌, nat_lt, nat_le};
ghost use Rattle.std.specs.Prelude.{All, IfOk, IfErr, IsTrue, length, map, sum, slice_index, slice_index_or};
ghost use Rattle.std.specs.Bool.{OnTrue};
ghost use Rattle.std.specs.List.Sorted.{IsPermutation, IsSortedBy};
ghost use Rattle.multinomial_bounds.specs.Weight.{IsWeights};
ghost use Rattle.multinomial_bounds.specs.Mode.{mode_of_atoms};
ghost use Rattle.sub_isotopologues.specs.SubIsotopologues.{SubIsotopologue, sub_isotopologue_of};
ghost use Rattle.sub_isotopologues.specs.Children.{counts_over};
ghost use Rattle.sub_isotopologues.specs.Growth.{AreItemsOver, AreSearched, items_over, item_stands_before, item_cmp};
ghost use Rattle.sub_isotopologues.specs.Listings.{max_sub_isotopologues};
ghost use Rattle.sub_isotopologues.specs.ListAnswers.{OnlyTooMany};

use crate::children::{Wanted, append_children, greatest_up_to, node_of, push_within};
use crate::fault::SubFault;
use crate::sub_iso::{MAX_ISOTOPES, SubIso};
use multinomial_bounds::{Enclosure, MAX_ATOMS};
use std::alloc::{AllocError, Global};
use std::cmp::Ordering;

/// The items whose upper bound is looked for, in their order, where these items are all with a greater one.
pub(crate) fn added_items(
    alloc: Global,
    weights: &[u64],
    mode: &SubIso,
    items: &[SubIso],
    unlisted: &[u64],
    wanted: Wanted,
) -> Result<Vec<SubIso>, SubFault>
    requires weights_in_range { IsWeights weights.now }
    requires few_atoms { sum mode.now.counts ≤ MAX_ATOMS }
    requires mode { mode.now ≡ sub_isotopologue_of weights.now (mode_of_atoms weights.now (sum mode.now.counts)) }
    requires older { items.now ≡ items_over weights.now (sum mode.now.counts) wanted.up_to }
    requires searched { AreSearched weights.now mode.now.counts wanted.up_to items.now unlisted.now }
    requires lower { wanted.above ≤ wanted.up_to }
    requires room { wanted.most + length items.now ≡ max_sub_isotopologues }
    ensures added { IfOk result (λ added.
        items.now ++ added.items ≡ items_over weights.now (sum mode.now.counts) wanted.above) }
    ensures fits { IfOk result (λ added. length added.items ≤ wanted.most) }
    ensures cause { IfErr result (OnlyTooMany
        (max_sub_isotopologues < length (counts_over weights.now (sum mode.now.counts) wanted.above))) }
{
    let mut found = found_items(alloc, weights, mode, items, unlisted, wanted)?;
    found.sort_unstable_by(|a, b| compare(a, b));
    Ok(found)
}

/// The same in the order in which they are found.
fn found_items(
    alloc: Global,
    weights: &[u64],
    mode: &SubIso,
    items: &[SubIso],
    unlisted: &[u64],
    wanted: Wanted,
) -> Result<Vec<SubIso>, SubFault>
    requires weights_in_range { IsWeights weights.now }
    requires few_atoms { sum mode.now.counts ≤ MAX_ATOMS }
    requires mode { mode.now ≡ sub_isotopologue_of weights.now (mode_of_atoms weights.now (sum mode.now.counts)) }
    requires older { AreItemsOver weights.now (sum mode.now.counts) wanted.up_to items.now }
    requires searched { AreSearched weights.now mode.now.counts wanted.up_to items.now unlisted.now }
    requires lower { wanted.above ≤ wanted.up_to }
    requires room { wanted.most + length items.now ≡ max_sub_isotopologues }
    ensures all { IfOk result (λ found.
        AreItemsOver weights.now (sum mode.now.counts) wanted.above (items.now ++ found.items)) }
    ensures below { IfOk result (λ found. All (λ i. i.hi ≤ wanted.up_to) found.items) }
    ensures fits { IfOk result (λ found. length found.items ≤ wanted.most) }
    ensures cause { IfErr result (OnlyTooMany
        (max_sub_isotopologues < length (counts_over weights.now (sum mode.now.counts) wanted.above))) }
{
    let mut found = first_found(alloc, mode, wanted)?;
    let mut counts = vec![in alloc; 0; weights.len()]?;
    let mut place = 0;
    while place < items.len() + found.len() {
        if is_searched(unlisted, place, wanted.above) {
            place += 1;
            continue;
        }
        let enclosure = read_item(items, &found, place, &mut counts);
        let node = node_of(weights, mode.counts(), &counts, enclosure);
        append_children(node, wanted, &mut found)?;
        place += 1;
    }
    Ok(found)
}

/// Whether no child of the item at a place that isn't listed has an upper bound above a number.
fn is_searched(unlisted: &[u64], place: usize, above: u64) -> bool
    ensures { OnTrue result ((place < length unlisted.now) × (slice_index unlisted.now place ≤ above)) }
{
    place < unlisted.len() && unlisted[place] <= above
}

/// For each item the greatest upper bound of its children that isn't above the one that is looked for, or a number that
/// is no less: what is known of those that are not listed then.
pub(crate) fn unlisted_bounds(
    alloc: Global,
    weights: &[u64],
    mode: &SubIso,
    items: &[SubIso],
    unlisted: &[u64],
    wanted: Wanted,
) -> Result<Vec<u64>, AllocError>
    requires weights_in_range { IsWeights weights.now }
    requires few_atoms { sum mode.now.counts ≤ MAX_ATOMS }
    requires mode { mode.now ≡ sub_isotopologue_of weights.now (mode_of_atoms weights.now (sum mode.now.counts)) }
    requires older { items.now ≡ items_over weights.now (sum mode.now.counts) wanted.up_to }
    requires searched { AreSearched weights.now mode.now.counts wanted.up_to items.now unlisted.now }
    requires lower { wanted.above ≤ wanted.up_to }
    ensures { IfOk result (λ bounds.
        AreSearched weights.now mode.now.counts wanted.above items.now bounds.items) }
{
    let mut bounds = Vec::new(alloc);
    for (place, item) in items.iter().enumerate() {
        let bound = if is_searched(unlisted, place, wanted.above) {
            unlisted[place]
        } else {
            let node = node_of(weights, mode.counts(), item.counts(), item.enclosure());
            greatest_up_to(node, wanted.above)
        };
        bounds.push(bound)?;
    }
    Ok(bounds)
}

/// The mode, where its upper bound is looked for.
fn first_found(alloc: Global, mode: &SubIso, wanted: Wanted) -> Result<Vec<SubIso>, SubFault>
    requires { length mode.now.counts ≤ MAX_ISOTOPES }
    ensures found { IfOk result (λ found. found.items ≡
        (if nat_lt wanted.above mode.now.hi && nat_le mode.now.hi wanted.up_to then mode.now ∷ [] else [])) }
    ensures fits { IfOk result (λ found. length found.items ≤ wanted.most) }
    ensures cause { IfErr result (OnlyTooMany
        (IsTrue (nat_lt wanted.above mode.now.hi && nat_le mode.now.hi wanted.up_to)
        × (wanted.most ≡ 0))) }
{
    let mut found = Vec::new(alloc);
    if wanted.has(mode.enclosure().hi) {
        push_within(
            SubIso::new(mode.counts(), mode.enclosure()),
            wanted.most,
            &mut found,
        )?;
    }
    Ok(found)
}

/// Reads the item at a place of both lists, one behind the other: writes its counts, and gives its enclosure.
fn read_item(items: &[SubIso], found: &[SubIso], place: usize, counts: &mut [u32]) -> Enclosure
    requires within { place < length items.now + length found.now }
    requires room { (d : SubIsotopologue) →
        length counts.old ≡ length (slice_index_or (items.now ++ found.now) place d).counts }
    ensures counts { (d : SubIsotopologue) → counts.new ≡ (slice_index_or (items.now ++ found.now) place d).counts }
    ensures lo { (d : SubIsotopologue) → result.lo ≡ (slice_index_or (items.now ++ found.now) place d).lo }
    ensures hi { (d : SubIsotopologue) → result.hi ≡ (slice_index_or (items.now ++ found.now) place d).hi }
{
    let item = item_at(items, found, place);
    counts.copy_from_slice(item.counts());
    item.enclosure()
}

/// The item at a place of both lists, one behind the other.
fn item_at<'a>(items: &'a [SubIso], found: &'a [SubIso], place: usize) -> &'a SubIso
    requires { place < length items.now + length found.now }
    ensures { (d : SubIsotopologue) → result.now ≡ slice_index_or (items.entry.now ++ found.entry.now) place d }
{
    if place < items.len() {
        &items[place]
    } else {
        &found[place - items.len()]
    }
}

/// Which of two items comes first: the one of the greater upper bound, ties in the lexicographic order of the counts.
fn compare(a: &SubIso, b: &SubIso) -> Ordering
    ensures { result ≡ item_cmp a.now b.now }
{
    let (first, second) = (a.enclosure().hi, b.enclosure().hi);
    second.cmp(&first).then_with(|| a.counts().cmp(b.counts()))
}
