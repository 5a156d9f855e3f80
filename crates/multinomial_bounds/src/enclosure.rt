//! Two numbers that a probability lies between.

ghost use Rattle.std.specs.Prelude.{◌≡◌, ◌*◌, ◌^◌, ◌<◌, ◌≤◌};

/// Probability 1, in units of 10^-18.
pub const CERTAINTY: u64 = 1_000_000_000_000_000_000;

/// Bounds of a probability, in units of 10^-18.
#[derive(Clone, Copy, Debug, PartialEq, Eq)]
pub struct Enclosure {
    /// The probability is at least this.
    pub lo: u64,
    /// The probability is at most this, which is at most 10^18.
    pub hi: u64,
    pub ghost ordered: { lo ≤ hi },
    pub ghost at_most_one: { hi ≤ 10 ^ 18 },
}

impl Enclosure {
    ghost use Rattle.multinomial_bounds.specs.Bounds.{certainty, floor_of, ceiling_of};

    /// The enclosure of probability 1, which a formula without unlabelled atoms has.
    pub const fn certain() -> Enclosure
        ensures lo { result.lo ≡ certainty }
        ensures hi { result.hi ≡ certainty }
    {
        Enclosure {
            lo: CERTAINTY,
            hi: CERTAINTY,
        }
    }

    /// The enclosure times a factor of at most 1. The denominators are at most 10^4 counts times
    /// 1.6 * 10^13 of weights, so no product passes 1.6 * 10^35, which is below 2^117.
    pub(crate) fn scaled(self, numerator: u128, denominator: u128) -> Enclosure
        requires some { 0 < denominator }
        requires falls { numerator ≤ denominator }
        requires small { denominator ≤ 10 ^ 18 }
        ensures lo { result.lo ≡ floor_of (self.lo * numerator) denominator }
        ensures hi { result.hi ≡ ceiling_of (self.hi * numerator) denominator }
    {
        let lo = u128::from(self.lo) * numerator / denominator;
        let hi = (u128::from(self.hi) * numerator).div_ceil(denominator);
        Enclosure {
            lo: lo as u64,
            hi: hi as u64,
        }
    }
}
