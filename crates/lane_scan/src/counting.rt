//! How many numbers lie in a range.
ghost use Rattle.std.specs.Prelude.{◌≡◌, ◌+◌, ◌≤◌, nat_le, nat_lt, ◌&&◌, count_by, length, take, drop};

use crate::reaching::LANES;
use std::simd::prelude::*;

/// How many of the masses are from `lo` to `hi`, both included.
pub fn count_between(masses: &[u64], lo: u64, hi: u64) -> usize
    ensures { result ≡ count_by (λ m. nat_le lo m && nat_le m hi) masses.now }
{
    if lo > hi {
        return 0;
    }
    let mut at = 0;
    let mut count = 0;
    while masses.len() - at >= LANES {
        count += lanes_between(masses, at, lo, hi) as usize;
        at += LANES;
    }
    count + rest_between(masses, at, lo, hi)
}

/// How many masses of the vector at a place are in the range.
fn lanes_between(masses: &[u64], at: usize, lo: u64, hi: u64) -> u32
    requires room { at + 8 ≤ length masses.now }
    requires ordered { lo ≤ hi }
    ensures { result ≡ count_by (λ m. nat_le lo m && nat_le m hi) (take 8 (drop at masses.now)) }
{
    lanes_to(masses, at, hi) - lanes_below(masses, at, lo)
}

/// How many masses of the vector at a place are at most a limit.
fn lanes_to(masses: &[u64], at: usize, limit: u64) -> u32
    requires { at + 8 ≤ length masses.now }
    ensures { result ≡ count_by (λ m. nat_le m limit) (take 8 (drop at masses.now)) }
{
    let lanes = u64x8::from_slice(&masses[at..]);
    lanes.simd_le(u64x8::splat(limit)).to_bitmask().count_ones()
}

/// How many masses of the vector at a place are below a limit.
fn lanes_below(masses: &[u64], at: usize, limit: u64) -> u32
    requires { at + 8 ≤ length masses.now }
    ensures { result ≡ count_by (λ m. nat_lt m limit) (take 8 (drop at masses.now)) }
{
    let lanes = u64x8::from_slice(&masses[at..]);
    lanes.simd_lt(u64x8::splat(limit)).to_bitmask().count_ones()
}

/// How many masses from a place on are in the range.
fn rest_between(masses: &[u64], at: usize, lo: u64, hi: u64) -> usize
    requires { at ≤ length masses.now }
    ensures { result ≡ count_by (λ m. nat_le lo m && nat_le m hi) (drop at masses.now) }
{
    let rest = &masses[at..];
    rest.iter()
        .filter(|mass| lo <= **mass && **mass <= hi)
        .count()
}
