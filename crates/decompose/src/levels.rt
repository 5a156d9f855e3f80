//! Where the walk over the count lists of a window stands: a level for each symbol.
ghost use Rattle.std.specs.Prelude.{ℕ, ◌≡◌, ◌+◌, ◌-◌, ◌*◌, ◌%◌, ◌<◌, ◌≤◌, ◌⊎◌, length, MatchOption, IfOk};
ghost use Rattle.decompose.specs.Levels.{symbols_of, levels_of, counts_of, window_less};
ghost use Rattle.decompose.specs.Levels.{IsLevel, IsFirstWithin, NoneIsWithin};

use crate::limits::Limit;
use mass_scaling::Window;
use std::alloc::{AllocError, Global};

/// What the walk knows of a symbol: its mass, in 10^-12 Da, its scaled mass, and how many atoms of it a
/// formula may have.
#[derive(Clone, Copy, Debug)]
pub(crate) struct Symbol {
    pub(crate) mass: u64,
    pub(crate) scaled: u64,
    pub(crate) limit: Limit,
}

/// Where the walk stands at a symbol: its count, and what this count and those before it leave of the window.
#[derive(Clone, Copy, Debug)]
pub(crate) struct Level {
    pub(crate) count: u32,
    pub(crate) left: Window,
}

/// The symbols of these masses, scaled masses and limits.
pub(crate) fn symbols_of(
    alloc: Global,
    masses: &[u64],
    scaled: &[u64],
    limits: &[Limit],
) -> Result<Vec<Symbol>, AllocError>
    ensures { IfOk result (λ symbols. symbols.items ≡ symbols_of masses.now scaled.now limits.now) }
{
    masses
        .iter()
        .zip(scaled)
        .zip(limits)
        .map(|((mass, scaled), limit)| Symbol {
            mass: *mass,
            scaled: *scaled,
            limit: *limit,
        })
        .collect(alloc)
}

/// Levels with these counts, each below the whole window.
pub(crate) fn levels_of(
    alloc: Global,
    window: Window,
    counts: &[u32],
) -> Result<Vec<Level>, AllocError>
    ensures { IfOk result (λ levels. levels.items ≡ levels_of window counts.now) }
{
    counts
        .iter()
        .map(|count| Level {
            count: *count,
            left: window,
        })
        .collect(alloc)
}

/// The counts of levels.
pub(crate) fn counts_of(alloc: Global, levels: &[Level]) -> Result<Vec<u32>, AllocError>
    ensures { IfOk result (λ counts. counts.items ≡ counts_of levels.now) }
{
    levels.iter().map(|level| level.count).collect(alloc)
}

/// Writes the counts of levels, one for each.
pub(crate) fn write_counts(levels: &[Level], counts: &mut [u32])
    requires { length counts.old ≡ length levels.now }
    ensures { counts.new ≡ counts_of levels.now }
{
    for (place, level) in levels.iter().enumerate() {
        counts[place] = level.count;
    }
}

/// What a mass leaves of a window; of one that ends below it 0 alone.
pub(crate) fn window_less(window: Window, taken: u64) -> Window
    ensures { result ≡ window_less window taken }
{
    Window {
        lo: window.lo.saturating_sub(taken),
        hi: window.hi.saturating_sub(taken),
    }
}

impl Symbol {
    /// The level with this count, below a window. None where the count is above the limit or its mass
    /// above the window.
    pub(crate) fn level_at(self, window: Window, count: u32) -> Option<Level>
        ensures { MatchOption result
            ((self.limit.high < count) ⊎ (window.hi < count * self.mass))
            (λ level. (level.count ≡ count) × (count ≤ self.limit.high) × IsLevel self.mass window level) }
    {
        if self.limit.high < count {
            return None;
        }
        let taken = u64::from(count).checked_mul(self.mass)?;
        let hi = window.hi.checked_sub(taken)?;
        let lo = window.lo.saturating_sub(taken);
        Some(Level {
            count,
            left: Window { lo, hi },
        })
    }

    /// The level with the least count within the limit whose mass is in the window; None where there is none.
    pub(crate) fn first_within(self, window: Window) -> Option<Level>
        requires { 0 < self.mass }
        ensures { MatchOption result (NoneIsWithin self window) (IsFirstWithin self window) }
    {
        let least = u64::from(self.limit.low).max(window.lo.div_ceil(self.mass));
        if u64::from(self.limit.high) < least {
            return None;
        }
        self.level_at(window, least as u32)
    }
}

impl Symbol {
    /// The same for the window of this upper end and width, as far as it is above 0, where `remainder` is that
    /// of the upper end by the symbol's mass: without a division where no multiple of the mass lies in the window.
    pub(crate) fn first_by_remainder(self, hi: u64, width: u64, remainder: u64) -> Option<Level>
        requires positive { 0 < self.mass }
        requires remainder { remainder ≡ hi % self.mass }
        ensures { MatchOption result (NoneIsWithin self (record { lo = hi - width; hi = hi }))
            (IsFirstWithin self (record { lo = hi - width; hi = hi })) }
    {
        if width < remainder {
            return None;
        }
        let lo = hi.saturating_sub(width);
        self.first_within(Window { lo, hi })
    }

    /// The remainder by the symbol's mass of a number less another, of their remainders.
    pub(crate) fn remainder_less(self, remainder: u64, step: u64) -> u64
        requires remainder { remainder < self.mass }
        requires step { step < self.mass }
        ensures { (number less : ℕ) → less ≤ number → number % self.mass ≡ remainder → less % self.mass ≡ step
            → (number - less) % self.mass ≡ result }
    {
        if step <= remainder {
            remainder - step
        } else {
            remainder + (self.mass - step)
        }
    }
}

impl Symbol {
    /// A count raised by some more, and what these leave of a number; None where the count comes above the limit or
    /// their mass above the number.
    pub(crate) fn raised_by(self, count: u32, number: u64, more: u64) -> Option<(u32, u64)>
        requires { count ≤ self.limit.high }
        ensures { MatchOption result
            ((self.limit.high < count + more) ⊎ (number < more * self.mass))
            (λ raised. (raised.0 ≡ count + more) × (count + more ≤ self.limit.high)
            × (more * self.mass ≤ number) × (raised.1 ≡ number - more * self.mass)) }
    {
        if u64::from(self.limit.high - count) < more {
            return None;
        }
        let taken = more.checked_mul(self.mass)?;
        let less = number.checked_sub(taken)?;
        Some((count + more as u32, less))
    }
}

impl Level {
    /// The level with one more of the symbol. None where the count is at its limit or the symbol's mass
    /// above what is left.
    pub(crate) fn raised(self, symbol: Symbol) -> Option<Level>
        ensures { MatchOption result
            ((symbol.limit.high ≤ self.count) ⊎ (self.left.hi < symbol.mass))
            (λ level. (level.count ≡ self.count + 1) × (self.count < symbol.limit.high)
            × (symbol.mass ≤ self.left.hi) × (level.left ≡ window_less self.left symbol.mass)) }
    {
        if symbol.limit.high <= self.count {
            return None;
        }
        let hi = self.left.hi.checked_sub(symbol.mass)?;
        let lo = self.left.lo.saturating_sub(symbol.mass);
        Some(Level {
            count: self.count + 1,
            left: Window { lo, hi },
        })
    }
}
