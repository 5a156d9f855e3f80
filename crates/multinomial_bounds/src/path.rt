//! Enclosures of any counts, by moves of one atom that begin at the mode.

ghost use Rattle.std.specs.Prelude.{◌≡◌, ◌+◌, ◌*◌, ◌<◌, ◌≤◌, ℕ, length, sum, slice_index, IfOk, MatchOption};
ghost use Rattle.multinomial_bounds.specs.Weight.{IsWeights, weight_of, total_of};
ghost use Rattle.multinomial_bounds.specs.Bounds.{floor_of, ceiling_of, IsEnclosure};
ghost use Rattle.multinomial_bounds.specs.Mode.{mode_of_atoms, mode_bound, IsMode};
ghost use Rattle.multinomial_bounds.specs.Path.{atoms_above, bound_at, bound_of};

use crate::enclosure::Enclosure;
use crate::mode::{MAX_ATOMS, mode_of};
use crate::moves::move_down;
use crate::spread::Spread;
use std::alloc::{AllocError, Global};

/// The enclosure of the probability of an element's counts, in units of 10^-18, from the mode of as many
/// atoms over these weights. It takes time in proportion to the moves of one atom that lead from the
/// mode to the counts, where `mode` was found with these weights, and fails only for want of memory.
pub fn enclose(
    alloc: Global,
    weights: &[u64],
    mode: &Spread,
    counts: &[u32],
) -> Result<Enclosure, AllocError>
    requires weights_in_range { IsWeights weights.now }
    requires same_places { length counts.now ≡ length weights.now }
    requires few_atoms { sum counts.now ≤ MAX_ATOMS }
    requires mode_of_these { mode.now ≡ mode_of_atoms weights.now (sum counts.now) }
    ensures lo { IfOk result (λ e. e.lo ≡ bound_of floor_of weights.now counts.now) }
    ensures hi { IfOk result (λ e. e.hi ≡ bound_of ceiling_of weights.now counts.now) }
    ensures encloses { IfOk result (λ e.
        IsEnclosure e.lo e.hi
        (weight_of weights.now (sum counts.now) counts.now) (total_of weights.now (sum counts.now))) }
    ensures width { IfOk result (λ e. e.hi ≤ e.lo + 2 * sum counts.now) }
{
    let start = enclosure_of_mode(alloc, weights, mode, counts)?;
    let mut current = mode.counts().to_vec(alloc)?;
    Ok(along_path(start, weights, &mut current, counts))
}

// The enclosure of the counts, from that of the mode, which the current counts are at first. Each
// isotope with too many atoms gives them to those with too few, the last isotopes first, since the
// definition takes the moves back from the first ones on.
fn along_path(start: Enclosure, weights: &[u64], current: &mut [u32], counts: &[u32]) -> Enclosure
    requires weights_in_range { IsWeights weights.now }
    requires same_places { length counts.now ≡ length weights.now }
    requires mode_places { length current.old ≡ length weights.now }
    requires few_atoms { sum counts.now ≤ MAX_ATOMS }
    requires same_atoms { sum current.old ≡ sum counts.now }
    requires is_mode { IsMode weights.now current.old }
    ensures lo { result.lo ≡
        bound_at floor_of weights.now current.old start.lo (atoms_above current.old counts.now) counts.now }
    ensures hi { result.hi ≡
        bound_at ceiling_of weights.now current.old start.hi (atoms_above current.old counts.now) counts.now }
{
    let mut enclosure = start;
    while let Some((from, to)) = next_move(current, counts) {
        enclosure = move_down(enclosure, weights, current, from, to);
        current[from] -= 1;
        current[to] += 1;
    }
    enclosure
}

// The enclosure of the mode itself, which the mode keeps for the weights that it was found with.
fn enclosure_of_mode(
    alloc: Global,
    weights: &[u64],
    mode: &Spread,
    counts: &[u32],
) -> Result<Enclosure, AllocError>
    requires weights_in_range { IsWeights weights.now }
    requires few_atoms { sum counts.now ≤ MAX_ATOMS }
    requires mode_of_these { mode.now ≡ mode_of_atoms weights.now (sum counts.now) }
    ensures lo { IfOk result (λ e. e.lo ≡ mode_bound floor_of weights.now (sum counts.now)) }
    ensures hi { IfOk result (λ e. e.hi ≡ mode_bound ceiling_of weights.now (sum counts.now)) }
{
    if mode.weights.as_slice() == weights {
        return Ok(mode.enclosure);
    }
    let atoms: u32 = counts.iter().sum();
    let (_, enclosure) = mode_of(alloc, weights, atoms)?;
    Ok(enclosure)
}

// The next move towards the counts: the last place that has too many atoms gives one to the last
// that has too few. None exactly where the counts are reached.
fn next_move(current: &[u32], counts: &[u32]) -> Option<(usize, usize)>
    requires same_places { length current.now ≡ length counts.now }
    requires same_atoms { sum current.now ≡ sum counts.now }
    ensures { MatchOption result (current.now ≡ counts.now) (λ m.
        (m.0 < length counts.now)
        × (m.1 < length counts.now)
        × (slice_index counts.now m.0 < slice_index current.now m.0)
        × (slice_index current.now m.1 < slice_index counts.now m.1)
        × ((k : ℕ) → m.0 < k → slice_index current.now k ≤ slice_index counts.now k)
        × ((k : ℕ) → m.1 < k → slice_index counts.now k ≤ slice_index current.now k)) }
{
    let from = last_above(counts, current)?;
    let to = last_above(current, counts)?;
    Some((from, to))
}

// The last place at which the second list has more than the first.
fn last_above(fewer: &[u32], more: &[u32]) -> Option<usize>
    requires { length fewer.now ≡ length more.now }
    ensures { MatchOption result
        ((k : ℕ) → slice_index more.now k ≤ slice_index fewer.now k)
        (λ i.
        (i < length more.now)
        × (slice_index fewer.now i < slice_index more.now i)
        × ((k : ℕ) → i < k → slice_index more.now k ≤ slice_index fewer.now k)) }
{
    for i in (0..more.len()).rev() {
        if fewer[i] < more[i] {
            return Some(i);
        }
    }
    None
}
