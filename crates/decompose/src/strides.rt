//! How remainders go on from count to count: what a number leaves less one and another mass, divided by a lighter
//! mass.
ghost use Rattle.std.specs.Prelude.{ℕ, ◌≡◌, ◌+◌, ◌-◌, ◌*◌, ◌%◌, ◌^◌, ◌<◌, ◌≤◌, ◌⊎◌, All};
ghost use Rattle.decompose.specs.Levels.{IsSymbol};
ghost use Rattle.decompose.specs.Strides.{AreStrides, AreStridesOf, KnowsStrides, LeapsOver};

use crate::levels::Symbol;

/// How the remainders by a mass go on as a heavier mass is taken off again and again: each is less by `fall`, or
/// greater by what lacks from that to the mass.
#[derive(Clone, Copy, Debug)]
pub(crate) struct Strides {
    pub(crate) mass: u64,
    pub(crate) fall: u64,
    /// At most 2^64 divided by the lesser of the fall and the rise.
    pub(crate) inverse: u64,
}

/// How many times the heavier mass was taken off, and the remainder then.
#[derive(Clone, Copy, Debug)]
pub(crate) struct Leap {
    pub(crate) times: u64,
    pub(crate) remainder: u64,
}

impl Strides {
    /// The strides by a mass, as a heavier one is taken off.
    pub(crate) fn of(heavier: u64, mass: u64) -> Strides
        requires { 0 < mass }
        ensures { AreStridesOf heavier mass result }
    {
        let fall = heavier % mass;
        let stride = fall.min(mass - fall);
        let inverse = if stride == 0 { 0 } else { u64::MAX / stride };
        Strides {
            mass,
            fall,
            inverse,
        }
    }

    /// The strides by the mass of the last symbol, as that of the one before it is taken off; any where there are
    /// fewer than two.
    pub(crate) fn of_last(symbols: &[Symbol]) -> Strides
        requires { All IsSymbol symbols.now }
        ensures { KnowsStrides symbols.now result }
    {
        let number = symbols.len();
        if number < 2 {
            return Strides::of(1, 1);
        }
        Strides::of(symbols[number - 2].mass, symbols[number - 1].mass)
    }

    /// Leaps over remainders that all are above the width: how far they go down by the fall, or up by the rise,
    /// whichever is less, is found without a division.
    pub(crate) fn leap(self, remainder: u64, width: u64) -> Leap
        requires strides { AreStrides self }
        requires remainder { remainder < self.mass }
        ensures leaps { LeapsOver self remainder width result }
        ensures times { result.times + 1 < 2 ^ 64 }
    {
        if remainder <= width {
            return Leap {
                times: 0,
                remainder,
            };
        }
        let rise = self.mass - self.fall;
        if self.fall <= rise {
            let times = high_half(remainder - width - 1, self.inverse);
            let remainder = remainder - times * self.fall;
            Leap { times, remainder }
        } else {
            let times = high_half(self.mass - 1 - remainder, self.inverse);
            let remainder = remainder + times * rise;
            Leap { times, remainder }
        }
    }
}

/// The high half of a product.
fn high_half(x: u64, y: u64) -> u64
    ensures { result * 2 ^ 64 ≤ x * y }
{
    (u128::from(x) * u128::from(y) / (1 << 64)) as u64
}
