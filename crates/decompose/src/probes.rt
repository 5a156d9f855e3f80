//! Probes: whether what is left of a scaled window can be filled.
ghost use Rattle.std.specs.Prelude.{ℕ, ◌≡◌, ◌+◌, ◌^◌, ◌<◌, ◌≤◌, List, false, length, All, MatchOption};
ghost use Rattle.std.specs.Bool.{OnTrue, OnFalse};
ghost use Rattle.decompose.specs.CountLists.{IsInBox};
ghost use Rattle.decompose.specs.Enumeration.{is_within};
ghost use Rattle.decompose.specs.Levels.{IsSymbol, masses_of, scaled_masses_of, limits_of, counts_of};
ghost use Rattle.mass_scaling.specs.Masses.{mass_of};
ghost use Rattle.mass_scaling.specs.Scales.{scaled_of};
ghost use Rattle.decompose.specs.declared.levels.Symbol.{Symbol};
ghost use Rattle.decompose.specs.Probes.{HasNoList, IsFilled, IsScaledWindow, KnowsScaled, scaled_at};
ghost use Rattle.decompose.specs.StepBounds.{HasNoScaledWindow, IsScaledWindowOf};

use crate::levels::{Level, Symbol, window_less};
use crate::mass_tables::Tables;
use mass_scaling::{Window, scaled_window};
use outside_ports::Steps;
use residue_table::Residues;
use std::sync::ledger::Ledger;

/// The window of the scaled masses that count lists of a window can have; None where there is none.
pub(crate) fn scaled_window_of(tables: &Tables, window: Window) -> Option<Window>
    ensures loses_nothing { (symbols : List Symbol) → masses_of symbols ≡ tables.now
        → scaled_masses_of symbols ≡ scaled_of tables.now
        → MatchOption result (HasNoList symbols window) (IsScaledWindow symbols window) }
    ensures exact { MatchOption result (HasNoScaledWindow tables.now window) (IsScaledWindowOf tables.now window) }
{
    scaled_window(&tables.masses, &tables.scale, window)
}

/// Whether these symbols may fill what is left of a scaled window: false only where no counts of theirs do.
///
/// A window that reaches down to 0 needs no probe: no atom at all fills it.
pub(crate) fn may_fill<L: Ledger>(
    residues: &Residues,
    symbols: &[Symbol],
    scaled: Window,
    steps: &mut Steps<L>,
) -> bool
    requires knows { KnowsScaled residues.now symbols.now }
    requires ordered { scaled.lo ≤ scaled.hi }
    requires in_range { scaled.hi < 2 ^ 63 }
    ensures unfilled { OnFalse result ((counts : List ℕ) →
        is_within scaled (mass_of (scaled_masses_of symbols.now) counts) ≡ false) }
    ensures filled { OnTrue result (IsFilled symbols.now scaled) }
    ensures one_step { steps.new ≤ steps.old + 1 }
{
    scaled.lo == 0 || residues.reaches_in(symbols.len(), scaled.lo, scaled.hi, steps)
}

/// What the levels before this place leave of a scaled window, where more than two symbols are left from it on.
pub(crate) fn scaled_at(
    symbols: &[Symbol],
    levels: &[Level],
    scaled: Window,
    place: usize,
) -> Window
    requires place { place ≤ length levels.now }
    requires one_each { length levels.now ≡ length symbols.now }
    requires in_range { scaled.hi < 2 ^ 63 }
    requires ordered { scaled.lo ≤ scaled.hi }
    requires symbols { All IsSymbol symbols.now }
    requires in_box { IsInBox (limits_of symbols.now) (counts_of levels.now) }
    ensures { place + 3 ≤ length symbols.now → result ≡ scaled_at symbols.now levels.now scaled place }
{
    if symbols.len() < place + 3 {
        return scaled;
    }
    let mut taken = 0u64;
    for before in 0..place {
        let mass = u64::from(levels[before].count) * symbols[before].scaled;
        taken = taken.saturating_add(mass);
    }
    window_less(scaled, taken)
}
