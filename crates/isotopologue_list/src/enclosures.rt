//! The enclosures of all counts of one element, each by one move of an atom.
//!
//! The enclosure of counts that aren't the mode is that of their parent, which is one move nearer to the
//! mode, times a quotient. So those that are nearer to the mode are found first.

ghost use Rattle.std.specs.Prelude.{◌≡◌, ◌<◌, ◌≤◌, ℕ, IfOk, length, map, flat_map, sum, slice_index_or};
ghost use Rattle.std.specs.List.Sorted.{IsPermutation, IsNonDecreasingBy};
ghost use Rattle.multinomial_bounds.specs.Weight.{IsWeights, IsCounts};
ghost use Rattle.multinomial_bounds.specs.Bounds.{floor_of, ceiling_of};
ghost use Rattle.multinomial_bounds.specs.Mode.{mode_of_atoms};
ghost use Rattle.multinomial_bounds.specs.Path.{first_above, atoms_above, parent_of, bound_of};
ghost use Rattle.multinomial_bounds.specs.Compositions.{compositions};
ghost use Rattle.isotopologue_list.specs.Nearest.{composition_at, moves_to_all};
ghost use Rattle.isotopologue_list.specs.ListedParts.{ends_of_counts};

use crate::composition::row_at;
use multinomial_bounds::{Enclosure, MAX_ATOMS, mode_of, move_down};
use std::alloc::{AllocError, Global};

/// The enclosures of all counts, which stand end to end. Memory is in proportion to the number of counts,
/// and time to that times its logarithm.
pub(crate) fn enclosures_of(
    alloc: Global,
    weights: &[u64],
    atoms: u32,
    counts: &[u32],
) -> Result<Vec<Enclosure>, AllocError>
    requires weights_in_range { IsWeights weights.now }
    requires few_atoms { atoms ≤ MAX_ATOMS }
    requires all { counts.now ≡ flat_map (λ c. c) (compositions (length weights.now) atoms) }
    ensures { IfOk result (λ es. map {B = ℕ × ℕ} (λ e. (e.lo, e.hi)) es.items
        ≡ map (ends_of_counts weights.now) (compositions (length weights.now) atoms)) }
{
    let (spread, enclosure_of_mode) = mode_of(alloc, weights, atoms)?;
    let mode = spread.counts();
    let order = nearest_first(alloc, mode, counts)?;
    let mut enclosures = vec![in alloc; enclosure_of_mode; order.len()]?;
    let mut parent = vec![in alloc; 0u32; weights.len()]?;
    for (moves, place) in &order {
        let row = row_at(counts, weights.len(), *place);
        let enclosure = if *moves == 0 {
            enclosure_of_mode
        } else {
            enclosure_by_parent(weights, mode, counts, &enclosures, row, &mut parent)
        };
        enclosures[*place] = enclosure;
    }
    Ok(enclosures)
}

// How many moves lead from the mode to each of all counts, beside the place of these, the fewest first.
fn nearest_first(
    alloc: Global,
    mode: &[u32],
    counts: &[u32],
) -> Result<Vec<(u32, usize)>, AllocError>
    requires some { 1 ≤ length mode.now }
    requires few_atoms { sum mode.now ≤ MAX_ATOMS }
    requires all { counts.now ≡ flat_map (λ c. c) (compositions (length mode.now) (sum mode.now)) }
    ensures all { IfOk result (λ v. IsPermutation (moves_to_all mode.now) v.items) }
    ensures in_order { IfOk result (λ v. IsNonDecreasingBy (λ p. p.0) v.items) }
{
    let mut order = Vec::new(alloc);
    for place in 0..counts.len() / mode.len() {
        let row = row_at(counts, mode.len(), place);
        order.push((atoms_above(mode, row), place))?;
    }
    order.sort_unstable_by_key(|nearness| nearness.0);
    Ok(order)
}

// The enclosure of counts that aren't the mode, where those of all counts that are nearer to it are known.
fn enclosure_by_parent(
    weights: &[u64],
    mode: &[u32],
    counts: &[u32],
    enclosures: &[Enclosure],
    row: &[u32],
    parent: &mut [u32],
) -> Enclosure
    requires weights_in_range { IsWeights weights.now }
    requires few_atoms { sum mode.now ≤ MAX_ATOMS }
    requires mode { mode.now ≡ mode_of_atoms weights.now (sum mode.now) }
    requires all { counts.now ≡ flat_map (λ c. c) (compositions (length weights.now) (sum mode.now)) }
    requires one_each { length enclosures.now ≡ length (compositions (length weights.now) (sum mode.now)) }
    requires row { IsCounts weights.now (sum mode.now) row.now }
    requires not_the_mode { 1 ≤ atoms_above mode.now row.now }
    requires room { length parent.old ≡ length weights.now }
    requires nearer_known { (k : ℕ) → k < length (compositions (length weights.now) (sum mode.now)) →
        let nearer = composition_at (length weights.now) (sum mode.now) k in
        atoms_above mode.now nearer < atoms_above mode.now row.now →
        slice_index_or (map {B = ℕ × ℕ} (λ e. (e.lo, e.hi)) enclosures.now) k (0, 0) ≡ ends_of_counts weights.now nearer }
    ensures lo { result.lo ≡ bound_of floor_of weights.now row.now }
    ensures hi { result.hi ≡ bound_of ceiling_of weights.now row.now }
{
    let (from, to) = write_parent(mode, row, parent);
    let before = enclosures[place_of(counts, parent)];
    move_down(before, weights, parent, from, to)
}

// Writes the parent of counts that aren't the mode. The move from it to the counts is from the first of the
// two places to the second.
fn write_parent(mode: &[u32], row: &[u32], parent: &mut [u32]) -> (usize, usize)
    requires same_places { length mode.now ≡ length row.now }
    requires same_atoms { sum mode.now ≡ sum row.now }
    requires not_the_mode { 1 ≤ atoms_above mode.now row.now }
    requires room { length parent.old ≡ length row.now }
    ensures parent { parent.new ≡ parent_of mode.now row.now }
    ensures from { result.0 ≡ first_above row.now mode.now }
    ensures to { result.1 ≡ first_above mode.now row.now }
{
    let above = first_above(mode, row);
    let below = first_above(row, mode);
    parent.copy_from_slice(row);
    parent[above] -= 1;
    parent[below] += 1;
    (below, above)
}

// The first place at which the second counts have more than the first.
fn first_above(fewer: &[u32], more: &[u32]) -> usize
    requires { length fewer.now ≡ length more.now }
    ensures { result ≡ first_above fewer.now more.now }
{
    for place in 0..more.len() {
        if fewer[place] < more[place] {
            return place;
        }
    }
    more.len()
}

// How many atoms of the second counts are above the first.
fn atoms_above(fewer: &[u32], more: &[u32]) -> u32
    requires same_places { length fewer.now ≡ length more.now }
    requires few_atoms { sum more.now ≤ MAX_ATOMS }
    ensures { result ≡ atoms_above fewer.now more.now }
{
    let mut above = 0;
    for place in 0..more.len() {
        above += more[place].saturating_sub(fewer[place]);
    }
    above
}

// The place of counts among all, which stand end to end in lexicographic order.
fn place_of(counts: &[u32], row: &[u32]) -> usize
    requires some { 1 ≤ length row.now }
    requires all { counts.now ≡ flat_map (λ c. c) (compositions (length row.now) (sum row.now)) }
    ensures within { result < length (compositions (length row.now) (sum row.now)) }
    ensures is { composition_at (length row.now) (sum row.now) result ≡ row.now }
{
    let mut low = 0;
    let mut high = counts.len() / row.len();
    while high - low > 1 {
        let middle = low + (high - low) / 2;
        if row_at(counts, row.len(), middle) <= row {
            low = middle;
        } else {
            high = middle;
        }
    }
    low
}
