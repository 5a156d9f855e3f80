//! Tolerances, and the test whether an ion's mass is within one of a measured m/z.
ghost use Rattle.std.specs.Prelude.{◌↔◌, IsTrue};
ghost use Rattle.mass_scaling.specs.Limits.{AreMeasured, IsIonMass};
ghost use Rattle.mass_scaling.specs.Tolerances.{Within};

/// What 1 is in units of a tolerance in ppm, which are 10^-9.
pub(crate) const PPM_UNITS: u64 = 1_000_000_000;

/// How far an ion's mass may be from the measured one.
#[derive(Clone, Copy, Debug, PartialEq, Eq)]
pub enum Tolerance {
    /// In 10^-3 ppm of the measured m/z, at most [`MAX_PPM`](crate::MAX_PPM).
    Ppm { thousandths: u64 },
    /// In 10^-12 Da of m/z, at most [`MAX_DA`](crate::MAX_DA).
    Da { units: u64 },
    /// In 10^-3 ppm of the calculated m/z, at most [`MAX_PPM`](crate::MAX_PPM).
    PpmCalculated { thousandths: u64 },
}

/// Whether the mass of an ion, in 10^-12 Da, is within tolerance of a measured m/z, in 10^-12 Da. The divisor
/// is the number of charges of the ion, and 1 for a neutral one.
pub fn within(ion: i128, mz: u64, tolerance: Tolerance, divisor: u32) -> bool
    requires measured { AreMeasured mz tolerance divisor }
    requires ion_in_range { IsIonMass ion }
    ensures { IsTrue result ↔ Within ion mz tolerance divisor }
{
    let measured = u128::from(divisor) * u128::from(mz);
    let distance = (ion - measured as i128).unsigned_abs();
    match tolerance {
        Tolerance::Ppm { thousandths } => {
            distance * u128::from(PPM_UNITS) <= measured * u128::from(thousandths)
        }
        Tolerance::Da { units } => distance <= u128::from(divisor) * u128::from(units),
        Tolerance::PpmCalculated { thousandths } => {
            (distance * u128::from(PPM_UNITS)) as i128 <= ion * i128::from(thousandths)
        }
    }
}
