//! Enclosures of isotopologues whose counts stand one element after another.

ghost use Rattle.std.specs.Prelude.{◌≡◌, ◌≤◌, IfOk, length, map};
ghost use Rattle.multinomial_bounds.specs.Bounds.{floor_of, ceiling_of, product_of};
ghost use Rattle.multinomial_bounds.specs.Isotopologue.{IsIsotopologue, bounds_of};
ghost use Rattle.isotopologue_sets.specs.Layers.{lo_of, hi_of};
ghost use Rattle.cover_claims.specs.CountsInRow.{isotopes_of_all, counts_by_element};

use crate::element::ClaimElement;
use multinomial_bounds::{Enclosure, times};
use std::alloc::{AllocError, Global};

/// The enclosure of each element's counts.
pub(crate) fn parts_of(
    alloc: Global,
    elements: &[ClaimElement],
    counts: &[u32],
) -> Result<Vec<Enclosure>, AllocError>
    requires isotopologue { IsIsotopologue elements.now (counts_by_element elements.now counts.now) }
    requires enough { isotopes_of_all elements.now ≤ length counts.now }
    ensures lo { IfOk result (λ parts.
        map (λ e. e.lo) parts.items ≡ bounds_of floor_of elements.now (counts_by_element elements.now counts.now)) }
    ensures hi { IfOk result (λ parts.
        map (λ e. e.hi) parts.items ≡ bounds_of ceiling_of elements.now (counts_by_element elements.now counts.now)) }
{
    let mut parts = Vec::new(alloc);
    let mut rest = counts;
    for element in elements {
        let (own, others) = rest.split_at(element.isotopes());
        parts.push(element.enclosure(alloc, own)?)?;
        rest = others;
    }
    Ok(parts)
}

/// The product of enclosures in their order.
pub(crate) fn product_of(parts: &[Enclosure]) -> Enclosure
    ensures lo { result.lo ≡ product_of floor_of (map (λ e. e.lo) parts.now) }
    ensures hi { result.hi ≡ product_of ceiling_of (map (λ e. e.hi) parts.now) }
{
    let mut product = Enclosure::certain();
    for part in parts {
        product = times(product, *part);
    }
    product
}

/// The enclosure of an isotopologue.
pub(crate) fn enclosure_of(
    alloc: Global,
    elements: &[ClaimElement],
    counts: &[u32],
) -> Result<Enclosure, AllocError>
    requires isotopologue { IsIsotopologue elements.now (counts_by_element elements.now counts.now) }
    requires enough { isotopes_of_all elements.now ≤ length counts.now }
    ensures lo { IfOk result (λ e. e.lo ≡ lo_of elements.now (counts_by_element elements.now counts.now)) }
    ensures hi { IfOk result (λ e. e.hi ≡ hi_of elements.now (counts_by_element elements.now counts.now)) }
{
    let parts = parts_of(alloc, elements, counts)?;
    Ok(product_of(&parts))
}
