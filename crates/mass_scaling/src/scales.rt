//! The masses of an alphabet counted in whole grains, and the window of scaled masses that a window of mass has.
ghost use Rattle.std.specs.Prelude.{◌≡◌, ℕ, List, ◌*◌, ◌^◌, ◌<◌, ◌≤◌, ◌↔◌};
ghost use Rattle.std.specs.Prelude.{IfOk, OnOk, IsErrOf, IsTrue, IfSome, IsNone, IsSomeAnd};
ghost use Rattle.mass_scaling.specs.Masses.{AreMasses, base_of, mass_of};
ghost use Rattle.mass_scaling.specs.Windows.{Holds, HoldsExactly};
ghost use Rattle.mass_scaling.specs.Ratios.{AreRatios};
ghost use Rattle.mass_scaling.specs.Scales.{AreScaled, IsInScaledWindow, IsLeastRatio, IsScaleOf, grain_for, scaled_of};

use crate::faults::ScaleFault;
use crate::limits::{MAX_BASE_MASS, MAX_SCALED_BASE};
use crate::windows::Window;
use std::alloc::Global;
use std::marker::Model;

/// The finest grain: 10^-5 Da, in 10^-12 Da.
pub const FINE_GRAIN: u64 = 10_000_000;

/// The grain between: 10^-4 Da, in 10^-12 Da.
const MIDDLE_GRAIN: u64 = 100_000_000;

/// The coarsest grain: 10^-3 Da, in 10^-12 Da.
const COARSE_GRAIN: u64 = 1_000_000_000;

/// The masses of an alphabet counted in whole grains. It is seen as the grain, in 10^-12 Da, and the scaled
/// masses.
#[derive(Debug, Drop)]
pub struct Scale {
    grain: u64,
    scaled: Vec<u64>,
}

impl Model for Scale {
    ghost use Rattle.mass_scaling.specs.Scales.{Scaling};

    ghost Value = { Scaling };

    ghost view = { λ s. record { grain = s.grain; scaled = s.scaled.items } };
}

impl Scale {
    /// The mass of one grain, in 10^-12 Da: 10^-5, 10^-4 or 10^-3 Da.
    pub fn grain(&self) -> u64
        ensures { result ≡ self.now.grain }
    {
        self.grain
    }

    /// How many whole grains each mass has.
    pub fn scaled(&self) -> &[u64]
        ensures { result.now ≡ self.now.scaled }
    {
        &self.scaled
    }
}

/// The scale of an alphabet of these masses, in 10^-12 Da: the finest of the grains 10^-5, 10^-4 and 10^-3 Da of
/// which the last mass, which is the least, has at most 1,000,000, and of each mass the number of whole grains.
///
/// `BaseTooHeavy` exactly where the last mass is above 400 Da.
pub fn scale_of(alloc: Global, masses: &[u64]) -> Result<Scale, ScaleFault>
    requires { AreMasses masses.now }
    ensures scale { IfOk result (IsScaleOf masses.now) }
    ensures scaled { IfOk result (λ scale. AreScaled scale.scaled) }
    ensures light_enough { OnOk result (base_of masses.now ≤ MAX_BASE_MASS) }
    ensures too_heavy { IsErrOf result ScaleFault.BaseTooHeavy ↔ (MAX_BASE_MASS < base_of masses.now) }
{
    let base = masses[masses.len() - 1];
    if base > MAX_BASE_MASS {
        return Err(ScaleFault::BaseTooHeavy);
    }
    let grain = grain_for(base);
    let scaled = masses.iter().map(|mass| *mass / grain).collect(alloc)?;
    Ok(Scale { grain, scaled })
}

/// The finest grain of which a least mass has at most 1,000,000.
fn grain_for(base: u64) -> u64
    ensures grain { result ≡ grain_for base }
    ensures above_zero { 0 < result }
{
    if base / FINE_GRAIN <= MAX_SCALED_BASE {
        FINE_GRAIN
    } else if base / MIDDLE_GRAIN <= MAX_SCALED_BASE {
        MIDDLE_GRAIN
    } else {
        COARSE_GRAIN
    }
}

/// The window of the numbers of grains that count lists of a window of mass can weigh. With m and a the masses and
/// the scaled masses, u a place of the least and v one of the greatest ratio of m to a, it holds exactly the numbers
/// A with `A * m_v >= lo * a_v` and `A * m_u <= hi * a_u`; None exactly where there is none. A count list whose mass
/// is in the window of mass has its scaled mass in it. Takes no memory.
pub fn scaled_window(masses: &[u64], scale: &Scale, window: Window) -> Option<Window>
    requires { IsScaleOf masses.now scale.now }
    ensures exact { IfSome result (λ found. HoldsExactly found (IsInScaledWindow masses.now window)) }
    ensures none { IsNone result ↔ ((number : ℕ) → ¬ IsInScaledWindow masses.now window number) }
    ensures loses_nothing { (counts : List ℕ) → Holds window (mass_of masses.now counts) →
        IsSomeAnd result (λ found. Holds found (mass_of scale.now.scaled counts)) }
    ensures not_empty { IfSome result (λ found. found.lo ≤ found.hi) }
    ensures in_grains { IfSome result (λ found. found.hi * FINE_GRAIN ≤ window.hi) }
{
    let ends = ends_of(masses, scale.scaled(), window);
    if ends.lo <= ends.hi { Some(ends) } else { None }
}

/// The least and the greatest number of the scaled window; the least is above the greatest where it has none.
fn ends_of(masses: &[u64], scaled: &[u64], window: Window) -> Window
    requires masses { AreMasses masses.now }
    requires scaled { scaled.now ≡ scaled_of masses.now }
    ensures exact { HoldsExactly result (IsInScaledWindow masses.now window) }
    ensures loses_nothing { (counts : List ℕ) → Holds window (mass_of masses.now counts) →
        Holds result (mass_of scaled.now counts) }
    ensures in_grains { result.hi * FINE_GRAIN ≤ window.hi }
{
    let heaviest = least_ratio(scaled, masses);
    let lightest = least_ratio(masses, scaled);
    let lowest = u128::from(window.lo) * u128::from(scaled[heaviest]);
    let highest = u128::from(window.hi) * u128::from(scaled[lightest]);
    Window {
        lo: lowest.div_ceil(u128::from(masses[heaviest])) as u64,
        hi: (highest / u128::from(masses[lightest])) as u64,
    }
}

/// A place of the least ratio of a number of the first list to that of the second.
fn least_ratio(xs: &[u64], ys: &[u64]) -> usize
    requires { AreRatios xs.now ys.now }
    ensures { IsLeastRatio xs.now ys.now result }
{
    let mut least = 0;
    for place in 0..xs.len() {
        if is_less(xs[place], ys[place], xs[least], ys[least]) {
            least = place;
        }
    }
    least
}

/// Whether the ratio of `x` to `y` is less than that of `other_x` to `other_y`.
fn is_less(x: u64, y: u64, other_x: u64, other_y: u64) -> bool
    ensures { IsTrue result ↔ (x * other_y < other_x * y) }
{
    u128::from(x) * u128::from(other_y) < u128::from(other_x) * u128::from(y)
}
