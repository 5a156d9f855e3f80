//! Products of enclosures.

ghost use Rattle.std.specs.Prelude.{◌≡◌, ◌+◌, ◌-◌, ◌*◌, ◌≤◌, ℕ};
ghost use Rattle.multinomial_bounds.specs.Bounds.{certainty, floor_of, ceiling_of, IsEnclosure};

use crate::enclosure::Enclosure;
use crate::quotient::{times_lower, times_upper};

/// The enclosure of the product of two probabilities, as of the isotopologues of two elements. The
/// products are at most 10^36.
pub fn times(x: Enclosure, y: Enclosure) -> Enclosure
    ensures lo { result.lo ≡ floor_of (x.lo * y.lo) certainty }
    ensures hi { result.hi ≡ ceiling_of (x.hi * y.hi) certainty }
    ensures encloses { (part whole part' whole' : ℕ) →
        IsEnclosure x.lo x.hi part whole →
        IsEnclosure y.lo y.hi part' whole' →
        IsEnclosure result.lo result.hi (part * part') (whole * whole') }
    ensures width { result.hi - result.lo ≤ x.hi - x.lo + (y.hi - y.lo) + 1 }
{
    Enclosure {
        lo: times_lower(x.lo, y.lo),
        hi: times_upper(x.hi, y.hi),
    }
}
