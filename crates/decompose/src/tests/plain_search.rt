//! The plain search for the next count list of a window: the reference that the walk is held against. It goes down
//! from the first count with each call.
ghost use Rattle.std.specs.Prelude.{◌≡◌, ◌/◌, ◌<◌, length, min, All, IfSome, IsSomeAnd, Some, None, MatchBool};
ghost use Rattle.std.specs.Prelude.{MatchOption, ◌∷◌};
ghost use Rattle.std.specs.List.{find};
ghost use Rattle.std.specs.Option.{option_copied};
ghost use Rattle.decompose.specs.CountLists.{IsInBox, box_of};
ghost use Rattle.decompose.specs.Search.{is_left};

use crate::limits::Limit;
use mass_scaling::Window;
use std::alloc::{AllocError, Global};

/// The first count to try, which is that of the list given last, if there is one, and what the
/// counts after it then have to come after.
fn first_count(limit: Limit, given: Option<&[u32]>) -> (u64, Option<&[u32]>)
    requires { IfSome (option_copied given) (λ counts. 0 < length counts) }
    ensures { MatchOption (option_copied given.entry)
        ((result.0 ≡ limit.low) × (option_copied result.1 ≡ None))
        (λ counts. IsSomeAnd (option_copied result.1) (λ rest. counts ≡ result.0 ∷ rest)) }
{
    match given {
        Some([count, rest @ ..]) => (u64::from(*count), Some(rest)),
        _ => (u64::from(limit.low), None),
    }
}

/// The greatest count that the limit allows and whose mass is not above the window.
fn highest_count(mass: u64, limit: Limit, window: Window) -> u32
    requires { 0 < mass }
    ensures { result ≡ min limit.high (window.hi / mass) }
{
    u64::from(limit.high).min(window.hi / mass) as u32
}

/// Writes into `out` the first count list of the box whose mass is in the window and which comes
/// after the one given last, if there is one. False where there is none: `out` is then as before.
///
/// A prefix whose own mass is above the window is not gone on with, and the last count is found by
/// a division.
pub(super) fn find_next(
    masses: &[u64],
    limits: &[Limit],
    window: Window,
    given: Option<&[u32]>,
    out: &mut [u32],
) -> bool
    requires one_limit_each { length limits.now ≡ length masses.now }
    requires one_count_each { length out.old ≡ length masses.now }
    requires positive { All (λ m. 0 < m) masses.now }
    requires given_in_box { IfSome (option_copied given) (IsInBox limits.now) }
    ensures { MatchBool result
        (find (is_left masses.now window (option_copied given.entry)) (box_of limits.now)
        ≡ Some out.new)
        ((find (is_left masses.now window (option_copied given.entry)) (box_of limits.now)
        ≡ None) × (out.new ≡ out.old)) }
{
    let Some((mass, masses)) = masses.split_first() else {
        return window.lo == 0 && given.is_none();
    };
    let (limit, limits) = (limits[0], &limits[1..]);
    let (mut count, mut given) = first_count(limit, given);
    if masses.is_empty() {
        let least = window.lo.div_ceil(*mass);
        if count < least {
            count = least;
            given = None;
        }
    }
    let highest = highest_count(*mass, limit, window);
    while count <= u64::from(highest) {
        let taken = count * *mass;
        let left = Window {
            lo: window.lo.saturating_sub(taken),
            hi: window.hi - taken,
        };
        if find_next(masses, limits, left, given, &mut out[1..]) {
            out[0] = count as u32;
            return true;
        }
        count += 1;
        given = None;
    }
    false
}

/// All count lists of the box whose mass is in the window, one after the other, at most `most` of them.
pub(super) fn lists_of(
    alloc: Global,
    masses: &[u64],
    limits: &[Limit],
    window: Window,
    most: u32,
) -> Result<Vec<u32>, AllocError>
    requires one_limit_each { length limits.now ≡ length masses.now }
    requires positive { All (λ m. 0 < m) masses.now }
{
    let mut lists = Vec::new(alloc);
    let mut given = vec![in alloc; 0; masses.len()]?;
    let mut next = vec![in alloc; 0; masses.len()]?;
    if !find_next(masses, limits, window, None, &mut next) {
        return Ok(lists);
    }
    'lists: for _ in 0..most {
        lists.extend_from_slice(&next)?;
        given.copy_from_slice(&next);
        if !find_next(masses, limits, window, Some(&given), &mut next) {
            break;
        }
    }
    Ok(lists)
}
