//! The walk over the count lists of a window, in lexicographic order.
ghost use Rattle.std.specs.Prelude.{ℕ, ◌≡◌, ◌+◌, ◌*◌, ◌<◌, ◌≤◌, [], ◌∷◌, length, All, Some, None};
ghost use Rattle.std.specs.Prelude.{MatchBool, MatchOption, IfSome};
ghost use Rattle.std.specs.Bool.{OnTrue, OnFalse};
ghost use Rattle.std.specs.List.{find};
ghost use Rattle.decompose.specs.CountLists.{IsInBox, box_of};
ghost use Rattle.decompose.specs.Search.{is_left};
ghost use Rattle.decompose.specs.Levels.{IsSymbol, AreLevels, window_at, masses_of, limits_of, counts_of};
ghost use Rattle.decompose.specs.Probes.{IsScaledWindow, KnowsScaled, HasNoList};
ghost use Rattle.decompose.specs.Numbers.{HasRoom, number_in, number_from, number_after, found_list};
ghost use Rattle.decompose.specs.Strides.{AreStridesOf, KnowsStrides};
ghost use Rattle.decompose.specs.Walk.{limits_from, FindsFirst, StandsAt, given_of};

use crate::levels::{Level, Symbol, window_less};
use crate::probes::{may_fill, scaled_at};
use crate::strides::Strides;
use mass_scaling::Window;
use outside_ports::Steps;
use residue_table::Residues;
use std::sync::ledger::Ledger;

/// The least count of the first of these symbols, if there is one.
fn first_low(symbols: &[Symbol]) -> u32
    ensures { limits_from result (limits_of symbols.now) ≡ limits_of symbols.now }
{
    match symbols {
        [symbol, ..] => symbol.limit.low,
        [] => 0,
    }
}

/// Writes into `levels` the first list over two symbols whose mass is in the window, from this count of
/// the heavier one on; false where there is none, and the levels are then as before.
///
/// For each count of the heavier symbol, the remainder of what is left by the lighter one's mass tells
/// whether a count of the lighter one fits. Counts whose remainders can't come down to the window's width are
/// leapt over.
fn find_in_pair(
    heavier: &Symbol,
    lighter: &Symbol,
    strides: &Strides,
    window: Window,
    count: u32,
    levels: &mut [Level],
) -> bool
    requires two { length levels.old ≡ 2 }
    requires positive { 0 < lighter.now.mass }
    requires strides { AreStridesOf heavier.now.mass lighter.now.mass strides.now }
    requires ordered { window.lo ≤ window.hi }
    ensures { FindsFirst (heavier.now ∷ lighter.now ∷ []) count window result levels.old levels.new }
{
    let Some(first) = heavier.level_at(window, count) else {
        return false;
    };
    let width = window.hi - window.lo;
    let mut count = count;
    let mut hi = first.left.hi;
    let mut remainder = hi % lighter.mass;
    'counts: loop {
        if let Some(last) = lighter.first_by_remainder(hi, width, remainder) {
            let lo = hi.saturating_sub(width);
            levels[0] = Level {
                count,
                left: Window { lo, hi },
            };
            levels[1] = last;
            return true;
        }
        let leap = strides.leap(remainder, width);
        let Some((raised, less)) = heavier.raised_by(count, hi, leap.times + 1) else {
            return false;
        };
        count = raised;
        hi = less;
        remainder = lighter.remainder_less(leap.remainder, strides.fall);
    }
}

/// Writes into `levels` the first list over one symbol whose mass is in the window, from this count on; false where
/// there is none, and the levels are then as before.
fn find_alone(symbol: Symbol, window: Window, count: u32, levels: &mut [Level]) -> bool
    requires one { length levels.old ≡ 1 }
    requires positive { 0 < symbol.mass }
    ensures { FindsFirst (symbol ∷ []) count window result levels.old levels.new }
{
    // Most often the count is above the window already, which needs no division to be known.
    if symbol.level_at(window, count).is_none() {
        return false;
    }
    let mut rest = symbol;
    rest.limit.low = count;
    let Some(level) = rest.first_within(window) else {
        return false;
    };
    levels[0] = level;
    true
}

/// Writes into `levels` the first list over these symbols whose mass is in the window, from this count
/// of the first symbol on; false where there is none, and the levels are then as before.
///
/// It goes down below a count only where a probe tells that the symbols below may fill what is left of
/// the scaled window. The last two symbols need no probes.
fn find_from<L: Ledger>(
    residues: &Residues,
    symbols: &[Symbol],
    strides: &Strides,
    window: Window,
    scaled: Window,
    count: u32,
    levels: &mut [Level],
    steps: &mut Steps<L>,
) -> bool
    requires one_level_each { length levels.old ≡ length symbols.now }
    requires symbols { All IsSymbol symbols.now }
    requires ordered { window.lo ≤ window.hi }
    requires scaled { IsScaledWindow symbols.now window scaled }
    requires knows { KnowsScaled residues.now symbols.now }
    requires strides { KnowsStrides symbols.now strides.now }
    ensures finds { FindsFirst symbols.now count window result levels.old levels.new }
    ensures steps { (most : ℕ) → HasRoom symbols.now scaled.hi most → steps.new ≤ steps.old + (most + 1) * (1 +
        length symbols.now * number_from symbols.now scaled count most (found_list result (counts_of levels.new))) }
{
    let Some((symbol, below)) = symbols.split_first() else {
        return window.lo == 0;
    };
    if let [lighter] = below {
        return find_in_pair(symbol, lighter, strides, window, count, levels);
    }
    let Some(mut level) = symbol.level_at(window, count) else {
        return false;
    };
    let low = first_low(below);
    let mut rest = window_less(scaled, u64::from(level.count) * symbol.scaled);
    'counts: loop {
        if may_fill(residues, below, rest, steps)
            && match below {
                [heavier, lighter] => {
                    find_in_pair(heavier, lighter, strides, level.left, low, &mut levels[1..])
                }
                _ => find_from(
                    residues,
                    below,
                    strides,
                    level.left,
                    rest,
                    low,
                    &mut levels[1..],
                    steps,
                ),
            }
        {
            levels[0] = level;
            return true;
        }
        let Some(raised) = level.raised(*symbol) else {
            return false;
        };
        level = raised;
        rest = window_less(rest, symbol.scaled);
    }
}

/// The same, where one or two symbols need no scaled window.
fn find_below<L: Ledger>(
    residues: &Residues,
    symbols: &[Symbol],
    strides: &Strides,
    window: Window,
    scaled: Window,
    count: u32,
    levels: &mut [Level],
    steps: &mut Steps<L>,
) -> bool
    requires one_level_each { length levels.old ≡ length symbols.now }
    requires some { 1 ≤ length symbols.now }
    requires symbols { All IsSymbol symbols.now }
    requires ordered { window.lo ≤ window.hi }
    requires scaled { 3 ≤ length symbols.now → IsScaledWindow symbols.now window scaled }
    requires knows { KnowsScaled residues.now symbols.now }
    requires strides { KnowsStrides symbols.now strides.now }
    ensures finds { FindsFirst symbols.now count window result levels.old levels.new }
    ensures steps { (w : Window) → (3 ≤ length symbols.now → scaled ≡ w) → (most : ℕ) → HasRoom symbols.now w.hi most →
        steps.new ≤ steps.old + (most + 1) * (1 + length symbols.now
        * number_from symbols.now w count most (found_list result (counts_of levels.new))) }
{
    match symbols.len() {
        1 => find_alone(symbols[0], window, count, levels),
        2 => find_in_pair(&symbols[0], &symbols[1], strides, window, count, levels),
        _ => find_from(
            residues, symbols, strides, window, scaled, count, levels, steps,
        ),
    }
}

/// Writes into `levels` the first list over these symbols whose mass is in the window; false where there
/// is none, and the levels are then as before.
fn find_first<L: Ledger>(
    residues: &Residues,
    symbols: &[Symbol],
    strides: &Strides,
    window: Window,
    scaled: Window,
    levels: &mut [Level],
    steps: &mut Steps<L>,
) -> bool
    requires one_level_each { length levels.old ≡ length symbols.now }
    requires symbols { All IsSymbol symbols.now }
    requires ordered { window.lo ≤ window.hi }
    requires scaled { IsScaledWindow symbols.now window scaled }
    requires knows { KnowsScaled residues.now symbols.now }
    requires strides { KnowsStrides symbols.now strides.now }
    requires some { 1 ≤ length symbols.now }
    ensures steps { (most : ℕ) → HasRoom symbols.now scaled.hi most → steps.new ≤ steps.old + length symbols.now
        * (most + 1) * (number_in symbols.now scaled most (found_list result (counts_of levels.new)) + 1) }
    ensures finds { MatchBool result
        ((find (is_left (masses_of symbols.now) window None) (box_of (limits_of symbols.now))
        ≡ Some (counts_of levels.new)) × AreLevels symbols.now window levels.new)
        ((find (is_left (masses_of symbols.now) window None) (box_of (limits_of symbols.now)) ≡ None)
        × (levels.new ≡ levels.old)) }
{
    let low = first_low(symbols);
    find_from(
        residues, symbols, strides, window, scaled, low, levels, steps,
    )
}

/// What the levels before this one leave of the window.
fn window_at(window: Window, levels: &[Level], place: usize) -> Window
    requires { place ≤ length levels.now }
    ensures { result ≡ window_at window levels.now place }
{
    if 0 < place {
        levels[place - 1].left
    } else {
        window
    }
}

/// Writes into `levels` the first list over these symbols whose mass is in the window and which comes
/// after the counts of the levels; false where there is none, and the levels are then as before. The
/// walk stands at the first `depth` levels.
///
/// It goes on at the last level where it stands, and at those before only as the counts there are done.
fn find_next<L: Ledger>(
    residues: &Residues,
    symbols: &[Symbol],
    strides: &Strides,
    window: Window,
    scaled: Window,
    depth: usize,
    levels: &mut [Level],
    steps: &mut Steps<L>,
) -> bool
    requires one_level_each { length levels.old ≡ length symbols.now }
    requires symbols { All IsSymbol symbols.now }
    requires ordered { window.lo ≤ window.hi }
    requires scaled { IsScaledWindow symbols.now window scaled }
    requires knows { KnowsScaled residues.now symbols.now }
    requires strides { KnowsStrides symbols.now strides.now }
    requires stands { StandsAt symbols.now window levels.old depth }
    requires in_box { IsInBox (limits_of symbols.now) (counts_of levels.old) }
    ensures steps { (most : ℕ) → HasRoom symbols.now scaled.hi most → steps.new ≤ steps.old + length symbols.now
        * (most + 1) * (number_after symbols.now scaled (Some (counts_of levels.old)) most
        (found_list result (counts_of levels.new)) + 1) }
    ensures finds { MatchBool result
        ((find (is_left (masses_of symbols.now) window (Some (counts_of levels.old))) (box_of (limits_of symbols.now))
        ≡ Some (counts_of levels.new)) × AreLevels symbols.now window levels.new)
        ((find (is_left (masses_of symbols.now) window (Some (counts_of levels.old)))
        (box_of (limits_of symbols.now)) ≡ None)
        × (levels.new ≡ levels.old)) }
{
    let mut place = depth;
    while 0 < place {
        place -= 1;
        // Most often one more of the symbol is above what is left, which is known at once.
        if levels[place].raised(symbols[place]).is_none() {
            continue;
        }
        let left = window_at(window, levels, place);
        let rest = scaled_at(symbols, levels, scaled, place);
        let count = levels[place].count + 1;
        if find_below(
            residues,
            &symbols[place..],
            strides,
            left,
            rest,
            count,
            &mut levels[place..],
            steps,
        ) {
            return true;
        }
    }
    false
}

/// Writes into `levels` the first list over these symbols whose mass is in the window and which is
/// left: where the walk stands at some levels, those that come after their counts, and else all. False
/// where there is none, and the levels are then as before.
pub(crate) fn find_left<L: Ledger>(
    residues: &Residues,
    symbols: &[Symbol],
    strides: &Strides,
    window: Window,
    scaled: Option<Window>,
    stands: Option<usize>,
    levels: &mut [Level],
    steps: &mut Steps<L>,
) -> bool
    requires one_level_each { length levels.old ≡ length symbols.now }
    requires symbols { All IsSymbol symbols.now }
    requires ordered { window.lo ≤ window.hi }
    requires scaled { MatchOption scaled (HasNoList symbols.now window) (IsScaledWindow symbols.now window) }
    requires knows { KnowsScaled residues.now symbols.now }
    requires strides { KnowsStrides symbols.now strides.now }
    requires some { 1 ≤ length symbols.now }
    requires stands { IfSome stands (StandsAt symbols.now window levels.old) }
    requires in_box { IfSome (given_of stands (counts_of levels.old)) (IsInBox (limits_of symbols.now)) }
    ensures steps { MatchOption scaled (steps.new ≡ steps.old) (λ scaled. (most : ℕ) →
        HasRoom symbols.now scaled.hi most → steps.new ≤ steps.old + length symbols.now * (most + 1) * (number_after symbols.now scaled
        (given_of stands (counts_of levels.old)) most (found_list result (counts_of levels.new)) + 1)) }
    ensures finds { MatchBool result
        ((find (is_left (masses_of symbols.now) window (given_of stands (counts_of levels.old)))
        (box_of (limits_of symbols.now)) ≡ Some (counts_of levels.new)) × AreLevels symbols.now window levels.new)
        ((find (is_left (masses_of symbols.now) window (given_of stands (counts_of levels.old)))
        (box_of (limits_of symbols.now)) ≡ None)
        × (levels.new ≡ levels.old)) }
{
    let Some(scaled) = scaled else {
        return false;
    };
    match stands {
        None => find_first(residues, symbols, strides, window, scaled, levels, steps),
        Some(depth) => find_next(
            residues, symbols, strides, window, scaled, depth, levels, steps,
        ),
    }
}

/// Writes what is left of the window below each count of the levels, as far as the mass of the counts
/// is not above it; gives the number of levels so far. No list with these counts there and others
/// after them comes after the counts of the levels and has its mass in the window.
pub(crate) fn stand_at(symbols: &[Symbol], window: Window, levels: &mut [Level]) -> usize
    requires one_level_each { length levels.old ≡ length symbols.now }
    requires in_box { IsInBox (limits_of symbols.now) (counts_of levels.old) }
    ensures stands { StandsAt symbols.now window levels.new result }
    ensures counts { counts_of levels.new ≡ counts_of levels.old }
    ensures depth { result ≤ length levels.new }
{
    let Some((symbol, below)) = symbols.split_first() else {
        return 0;
    };
    let Some(level) = symbol.level_at(window, levels[0].count) else {
        return 0;
    };
    levels[0] = level;
    1 + stand_at(below, level.left, &mut levels[1..])
}
