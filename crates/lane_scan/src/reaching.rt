//! The first place of a row whose number is reached.
ghost use Rattle.std.specs.Prelude.{ℕ, ◌+◌, ◌^◌, ◌<◌, ◌≤◌, ◌↔◌, length, slice_index, EachIndex, IfSome, IsNone};
ghost use Rattle.lane_scan.specs.Rows.{FirstWithin, IsFirstReached};

use std::simd::prelude::*;

/// How many numbers a vector has.
pub(crate) const LANES: usize = 8;

/// The first place k with `row[k] <= from + k`; None exactly where there is none.
pub fn first_reached(row: &[u64], from: u64) -> Option<usize>
    requires { from + length row.now < 2 ^ 64 }
    ensures first { IfSome result (IsFirstReached row.now from) }
    ensures none { IsNone result ↔ EachIndex row.now (λ k. from + k < slice_index row.now k) }
{
    let mut at = 0;
    while row.len() - at >= LANES {
        let before = lanes_before(row, at, from);
        if before < LANES {
            return Some(at + before);
        }
        at += LANES;
    }
    rest_reached(row, at, from)
}

/// How many lanes of the vector at a place come before the first one that is reached.
fn lanes_before(row: &[u64], at: usize, from: u64) -> usize
    requires room { at + 8 ≤ length row.now }
    requires fits { from + length row.now < 2 ^ 64 }
    ensures { FirstWithin row.now from at 8 result }
{
    let lanes = u64x8::from_slice(&row[at..]);
    let limits = u64x8::splat(from + at as u64) + u64x8::from_array([0, 1, 2, 3, 4, 5, 6, 7]);
    let reached = lanes.simd_le(limits).to_bitmask();
    if reached == 0 {
        LANES
    } else {
        reached.trailing_zeros() as usize
    }
}

/// The first place from `at` on that is reached.
fn rest_reached(row: &[u64], at: usize, from: u64) -> Option<usize>
    requires within { at ≤ length row.now }
    requires fits { from + length row.now < 2 ^ 64 }
    requires none_before { (k : ℕ) → k < at → from + k < slice_index row.now k }
    ensures first { IfSome result (IsFirstReached row.now from) }
    ensures none { IsNone result ↔ EachIndex row.now (λ k. from + k < slice_index row.now k) }
{
    for place in at..row.len() {
        if row[place] <= from + place as u64 {
            return Some(place);
        }
    }
    None
}
