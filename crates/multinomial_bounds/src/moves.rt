//! A move of one atom between two isotopes of an element.

ghost use Rattle.std.specs.Prelude.{◌≡◌, ◌+◌, ◌-◌, ◌*◌, ◌<◌, ◌≤◌, ◌≢◌, ℕ, length, sum, slice_index};
ghost use Rattle.multinomial_bounds.specs.Weight.{IsWeights, one_less, one_more, weight_of, total_of};
ghost use Rattle.multinomial_bounds.specs.Bounds.{certainty, floor_of, ceiling_of, IsEnclosure};

use crate::enclosure::Enclosure;
use crate::mode::MAX_ATOMS;

/// The enclosure after a move of one atom that makes the counts no likelier, from that of `counts`:
/// the atom goes from the isotope at place `from` to the one at `to`.
pub fn move_down(
    from_enclosure: Enclosure,
    weights: &[u64],
    counts: &[u32],
    from: usize,
    to: usize,
) -> Enclosure
    requires weights_in_range { IsWeights weights.now }
    requires same_places { length counts.now ≡ length weights.now }
    requires few_atoms { sum counts.now ≤ MAX_ATOMS }
    requires from_within { from < length weights.now }
    requires to_within { to < length weights.now }
    requires apart { from ≢ to }
    requires has_atom { 1 ≤ slice_index counts.now from }
    requires falls { slice_index counts.now from * slice_index weights.now to
        ≤ (slice_index counts.now to + 1) * slice_index weights.now from }
    ensures lo { result.lo ≡
        floor_of
        (from_enclosure.lo * (slice_index counts.now from * slice_index weights.now to))
        ((slice_index counts.now to + 1) * slice_index weights.now from) }
    ensures hi { result.hi ≡
        ceiling_of
        (from_enclosure.hi * (slice_index counts.now from * slice_index weights.now to))
        ((slice_index counts.now to + 1) * slice_index weights.now from) }
    ensures encloses { (n : ℕ) →
        IsEnclosure from_enclosure.lo from_enclosure.hi
        (weight_of weights.now n counts.now) (total_of weights.now n) →
        IsEnclosure result.lo result.hi
        (weight_of weights.now n (one_more (one_less counts.now from) to)) (total_of weights.now n) }
    ensures width { result.hi - result.lo ≤ from_enclosure.hi - from_enclosure.lo + 1 }
{
    let numerator = u128::from(counts[from]) * u128::from(weights[to]);
    let denominator = (u128::from(counts[to]) + 1) * u128::from(weights[from]);
    from_enclosure.scaled(numerator, denominator)
}
