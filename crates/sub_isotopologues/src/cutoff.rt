//! The greatest bound of an element whose product with the others isn't above a threshold.
//!
//! A product that is rounded up is above a whole number exactly where the product itself is. So a threshold for it is
//! one for each factor alone, found by a division, and one comparison then tells whether counts are in a list.
ghost use Rattle.std.specs.Prelude.{◌≡◌, ◌*◌, ◌<◌, ◌≤◌, ◌↔◌, ℕ, All};
ghost use Rattle.multinomial_bounds.specs.Bounds.{certainty, ceiling_of};
ghost use Rattle.sub_isotopologues.specs.SubIsotopologues.{raised};

use multinomial_bounds::CERTAINTY;

/// The greatest number up to 10^18 whose product with some bounds isn't above the threshold.
pub(crate) fn cutoff_of_factors(threshold: u64, factors: &[u64]) -> u64
    requires some { All (λ hi. 1 ≤ hi) factors.now }
    requires most { All (λ hi. hi ≤ certainty) factors.now }
    requires at_most_one { threshold ≤ certainty }
    ensures at_most_one { result ≤ certainty }
    ensures cuts { (hi : ℕ) → hi ≤ certainty → (threshold < raised hi factors.now) ↔ (result < hi) }
{
    let mut cut = threshold;
    for place in (0..factors.len()).rev() {
        cut = cutoff_of_factor(cut, factors[place]);
    }
    cut
}

/// The greatest upper bound, in units of 10^-18 and at most 10^18, whose product with another one isn't above a
/// threshold. So a threshold of a product of bounds is taken back, from its last factor on, to one of its first.
pub fn cutoff_of_factor(threshold: u64, factor: u64) -> u64
    requires some { 1 ≤ factor }
    requires at_most_one { threshold ≤ certainty }
    ensures at_most_one { result ≤ certainty }
    ensures cuts { (hi : ℕ) → hi ≤ certainty → (threshold < ceiling_of (hi * factor) certainty) ↔ (result < hi) }
{
    if factor == CERTAINTY {
        return threshold;
    }
    let unit = u128::from(CERTAINTY);
    let quotient = u128::from(threshold) * unit / u128::from(factor);
    quotient.min(unit) as u64
}
