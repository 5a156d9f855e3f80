//! The window of masses whose ions are within tolerance of a measured m/z.
ghost use Rattle.std.specs.Prelude.{◌≡◌, ◌*◌, ◌≤◌, ◌↔◌, ℕ, ℤ, pos, ◌≤ℤ◌, IfSome, IsNone};
ghost use Rattle.mass_scaling.specs.Limits.{AreMeasured, IsCharged, IsIonMass};
ghost use Rattle.mass_scaling.specs.Tolerances.{Within};
ghost use Rattle.mass_scaling.specs.Windows.{IsWindow, IsWindowOf, NoMassIsWithin};
ghost use Rattle.mass_scaling.specs.Ranges.{Lies, HoldsMultiples};
ghost use Rattle.mass_scaling.specs.declared.limits.TheConstants.{MAX_ION_MASS};

use crate::tolerances::{PPM_UNITS, Tolerance};

/// The ions of one adduct: each has so many copies of a formula, and atoms and electrons added and lost.
#[derive(Clone, Copy, Debug, PartialEq, Eq)]
pub struct Charged {
    /// How many copies of the formula an ion has: 1 to 4.
    pub copies: u32,
    /// The number of charges, and 1 for a neutral adduct: 1 to 30.
    pub divisor: u32,
    /// The mass added, less the mass lost, less charge times electron, in 10^-12 Da.
    pub shift: i128,
}

/// The masses from `lo` to `hi`, both included, in 10^-12 Da: `lo` is above 0 and not above `hi`. A scaled window
/// has numbers of grains in place of masses.
#[derive(Clone, Copy, Debug, PartialEq, Eq)]
pub struct Window {
    pub lo: u64,
    pub hi: u64,
}

/// The masses of ions from `low` to `high`, both included, in 10^-12 Da.
#[derive(Clone, Copy)]
struct IonRange {
    low: i128,
    high: i128,
}

/// The masses of ions that are within tolerance of a measured m/z.
fn ions_within(mz: u64, tolerance: Tolerance, divisor: u32) -> IonRange
    requires { AreMeasured mz tolerance divisor }
    ensures exact { (ion : ℤ) → Within ion mz tolerance divisor ↔ Lies ion result.low result.high }
    ensures low_in_range { IsIonMass result.low }
    ensures high_in_range { IsIonMass result.high }
{
    let measured = u128::from(divisor) * u128::from(mz);
    let scale = u128::from(PPM_UNITS);
    match tolerance {
        Tolerance::Ppm { thousandths } => {
            let farthest = measured * u128::from(thousandths) / scale;
            IonRange {
                low: measured as i128 - farthest as i128,
                high: measured as i128 + farthest as i128,
            }
        }
        Tolerance::Da { units } => {
            let farthest = u128::from(divisor) * u128::from(units);
            IonRange {
                low: measured as i128 - farthest as i128,
                high: measured as i128 + farthest as i128,
            }
        }
        Tolerance::PpmCalculated { thousandths } => {
            let share = u128::from(thousandths);
            IonRange {
                low: (measured * scale).div_ceil(scale + share) as i128,
                high: (measured * scale / (scale - share)) as i128,
            }
        }
    }
}

/// The masses above 0 of which so many copies weigh from `low` to `high`.
fn masses_between(low: i128, high: i128, copies: u32) -> Option<Window>
    requires some { 1 ≤ copies }
    requires low_in_range { low ≤ℤ pos (2 * MAX_ION_MASS) }
    requires high_in_range { high ≤ℤ pos (2 * MAX_ION_MASS) }
    ensures window { IfSome result IsWindow }
    ensures exact { IfSome result (HoldsMultiples copies low high) }
    ensures none { IsNone result → (mass : ℕ) → 1 ≤ mass → ¬ Lies (pos (copies * mass)) low high }
{
    if high < 1 {
        return None;
    }
    let copies = u64::from(copies);
    let lo = (low.max(1) as u64).div_ceil(copies);
    let hi = high as u64 / copies;
    if lo <= hi {
        Some(Window { lo, hi })
    } else {
        None
    }
}

/// The least and the greatest mass above 0 whose ion is within tolerance of a measured m/z, in 10^-12 Da; each
/// mass between them is so too. None exactly where there is no such mass. Takes no memory.
pub fn window_of(mz: u64, tolerance: Tolerance, ion: Charged) -> Option<Window>
    requires measured { AreMeasured mz tolerance ion.divisor }
    requires charged { IsCharged ion }
    ensures window { IfSome result IsWindow }
    ensures exact { IfSome result (IsWindowOf mz tolerance ion) }
    ensures none { IsNone result ↔ NoMassIsWithin mz tolerance ion }
{
    let ions = ions_within(mz, tolerance, ion.divisor);
    masses_between(ions.low - ion.shift, ions.high - ion.shift, ion.copies)
}
