//! The mode of an element's atoms.

ghost use Rattle.std.specs.Prelude.{◌≡◌, ◌+◌, ◌*◌, ◌^◌, ◌<◌, ◌≤◌, ◌↔◌, ℕ, List, length, sum, slice_index, IsTrue, IfOk};
ghost use Rattle.multinomial_bounds.specs.Weight.{IsWeights, IsCounts, one_less, one_more, weight_of, total_of};
ghost use Rattle.multinomial_bounds.specs.Bounds.{floor_of, ceiling_of, IsEnclosure};
ghost use Rattle.multinomial_bounds.specs.Mode.{next_isotope, mode_of_atoms, mode_bound, IsMode};

use crate::enclosure::Enclosure;
use crate::spread::Spread;
use std::alloc::{AllocError, Global};

/// The greatest number of atoms of one element.
pub const MAX_ATOMS: u32 = 10_000;

/// The mode of an element's atoms, and the enclosure of its probability in units of 10^-18. The weights
/// are those of the isotopes with a positive abundance, by rising mass number; where the next atom may
/// be of several isotopes, it is of the lightest. It takes time in proportion to the atoms times the
/// isotopes, and fails only for want of memory.
pub fn mode_of(
    alloc: Global,
    weights: &[u64],
    atoms: u32,
) -> Result<(Spread, Enclosure), AllocError>
    requires weights_in_range { IsWeights weights.now }
    requires few_atoms { atoms ≤ MAX_ATOMS }
    ensures mode { IfOk result (λ r. r.0 ≡ mode_of_atoms weights.now atoms) }
    ensures lo { IfOk result (λ r. r.1.lo ≡ mode_bound floor_of weights.now atoms) }
    ensures hi { IfOk result (λ r. r.1.hi ≡ mode_bound ceiling_of weights.now atoms) }

    // What follows from these numbers.
    ensures counts { IfOk result (λ r. IsCounts weights.now atoms r.0) }
    ensures is_mode { IfOk result (λ r. IsMode weights.now r.0) }
    ensures likeliest { IfOk result (λ r. (other : List ℕ) → IsCounts weights.now atoms other →
        weight_of weights.now atoms other ≤ weight_of weights.now atoms r.0) }
    ensures encloses { IfOk result (λ r.
        IsEnclosure r.1.lo r.1.hi (weight_of weights.now atoms r.0) (total_of weights.now atoms)) }
    ensures width { IfOk result (λ r. r.1.hi ≤ r.1.lo + atoms) }
{
    let total = total_weight(weights);
    let mut counts = vec![in alloc; 0u32; weights.len()]?;
    let mut enclosure = Enclosure::certain();
    for drawn in 0..atoms {
        enclosure = add_atom(weights, total, drawn, enclosure, &mut counts);
    }
    let kept = weights.to_vec(alloc)?;
    let mode = Spread {
        counts,
        weights: kept,
        enclosure,
    };
    Ok((mode, enclosure))
}

// Adds the next atom of the mode to the counts of those drawn before, and gives the enclosure with it
// from that without it. No factor is above 1: each isotope was the likeliest when it was taken.
fn add_atom(
    weights: &[u64],
    total: u64,
    drawn: u32,
    enclosure: Enclosure,
    counts: &mut [u32],
) -> Enclosure
    requires weights_in_range { IsWeights weights.now }
    requires whole { total ≡ sum weights.now }
    requires same_places { length counts.old ≡ length weights.now }
    requires few_atoms { drawn < MAX_ATOMS }
    requires mode { counts.old ≡ mode_of_atoms weights.now drawn }
    requires lo { enclosure.lo ≡ mode_bound floor_of weights.now drawn }
    requires hi { enclosure.hi ≡ mode_bound ceiling_of weights.now drawn }
    ensures mode { counts.new ≡ mode_of_atoms weights.now (drawn + 1) }
    ensures lo { result.lo ≡ mode_bound floor_of weights.now (drawn + 1) }
    ensures hi { result.hi ≡ mode_bound ceiling_of weights.now (drawn + 1) }
{
    let isotope = next_isotope(weights, counts);
    let numerator = (u128::from(drawn) + 1) * u128::from(weights[isotope]);
    let denominator = (u128::from(counts[isotope]) + 1) * u128::from(total);
    counts[isotope] += 1;
    enclosure.scaled(numerator, denominator)
}

// The sum of an element's weights.
fn total_weight(weights: &[u64]) -> u64
    requires { sum weights.now < 2 ^ 64 }
    ensures { result ≡ sum weights.now }
{
    weights.iter().sum()
}

/// Whether no move of one atom makes the counts likelier. Where none does, no counts of as many atoms are
/// likelier, and none are likelier than after a move of one atom towards these.
pub fn is_mode(weights: &[u64], counts: &[u32]) -> bool
    requires { length counts.now ≡ length weights.now }
    ensures is_mode { IsTrue result ↔ IsMode weights.now counts.now }

    // What follows where the counts are a mode.
    ensures likeliest { IsTrue result → IsWeights weights.now →
        (other : List ℕ) → IsCounts weights.now (sum counts.now) other →
        weight_of weights.now (sum counts.now) other ≤ weight_of weights.now (sum counts.now) counts.now }
    ensures towards { IsTrue result → IsWeights weights.now →
        (atoms : ℕ) (other : List ℕ) (i j : ℕ) → IsCounts weights.now atoms other →
        slice_index counts.now i < slice_index other i → slice_index other j < slice_index counts.now j →
        weight_of weights.now atoms other ≤ weight_of weights.now atoms (one_more (one_less other i) j) }
{
    for i in 0..weights.len() {
        if !no_likelier_from(weights, counts, i) {
            return false;
        }
    }
    true
}

// Whether no move of one atom to the isotope at place `to` makes the counts likelier.
fn no_likelier_from(weights: &[u64], counts: &[u32], to: usize) -> bool
    requires same_places { length counts.now ≡ length weights.now }
    requires within { to < length weights.now }
    ensures { IsTrue result ↔ ((j : ℕ) → j < length weights.now →
        slice_index counts.now j * slice_index weights.now to
        ≤ (slice_index counts.now to + 1) * slice_index weights.now j) }
{
    for j in 0..weights.len() {
        let there = u128::from(counts[j]) * u128::from(weights[to]);
        let here = (u128::from(counts[to]) + 1) * u128::from(weights[j]);
        if there > here {
            return false;
        }
    }
    true
}

// The isotope of the next atom of the mode.
fn next_isotope(weights: &[u64], counts: &[u32]) -> usize
    requires same_places { length counts.now ≡ length weights.now }
    requires some { 1 ≤ length weights.now }
    ensures within { result < length weights.now }
    ensures value { result ≡ next_isotope weights.now counts.now }
{
    let mut best = 0;
    for i in 1..weights.len() {
        let here = u128::from(weights[i]) * (u128::from(counts[best]) + 1);
        let there = u128::from(weights[best]) * (u128::from(counts[i]) + 1);
        if here > there {
            best = i;
        }
    }
    best
}
