//! Products of two bounds over 10^18, without a division.
//!
//! The upper half of a product, times the inverse of 10^18 in whole parts of 2^120, is its quotient or at most 2 less;
//! two steps by the rest put that right.
ghost use Rattle.std.specs.Prelude.{◌≡◌, ◌+◌, ◌*◌, ◌/◌, ◌%◌, ◌^◌, ◌<◌, ◌≤◌};
ghost use Rattle.multinomial_bounds.specs.Bounds.{certainty, floor_of, ceiling_of};

use crate::enclosure::CERTAINTY;

/// 2^120 / 10^18, rounded down.
const INVERSE: u64 = 1_329_227_995_784_915_872;

/// The product of two bounds over 10^18, rounded down.
pub(crate) fn times_lower(x: u64, y: u64) -> u64
    requires x { x ≤ certainty }
    requires y { y ≤ certainty }
    ensures value { result ≡ floor_of (x * y) certainty }
    ensures at_most_one { result ≤ certainty }
{
    divided(u128::from(x) * u128::from(y)).0
}

/// The upper bound of the product of two probabilities, from theirs: the product over 10^18, rounded up.
pub fn times_upper(x: u64, y: u64) -> u64
    requires x { x ≤ certainty }
    requires y { y ≤ certainty }
    ensures value { result ≡ ceiling_of (x * y) certainty }
    ensures at_most_one { result ≤ certainty }
{
    let (quotient, rest) = divided(u128::from(x) * u128::from(y));
    if rest == 0 { quotient } else { quotient + 1 }
}

/// A product of two bounds over 10^18, and what is left.
fn divided(product: u128) -> (u64, u64)
    requires { product ≤ certainty * certainty }
    ensures quotient { result.0 ≡ product / certainty }
    ensures rest { result.1 ≡ product % certainty }
{
    let unit = u128::from(CERTAINTY);
    let quotient = ((product >> 60) * u128::from(INVERSE)) >> 60;
    let rest = product - quotient * unit;
    let (quotient, rest) = stepped(quotient as u64, rest as u64);
    stepped(quotient, rest)
}

/// A quotient with one more taken from the rest, where that is at least 10^18.
fn stepped(quotient: u64, rest: u64) -> (u64, u64)
    requires { quotient < 2 ^ 63 }
    ensures same { result.0 * certainty + result.1 ≡ quotient * certainty + rest }
    ensures less { certainty ≤ rest → result.1 + certainty ≡ rest }
    ensures unchanged { rest < certainty → result.1 ≡ rest }
    ensures few { result.0 ≤ quotient + 1 }
{
    if rest < CERTAINTY {
        (quotient, rest)
    } else {
        (quotient + 1, rest - CERTAINTY)
    }
}
