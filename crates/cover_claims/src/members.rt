//! The isotopologues of a claim, with their enclosures.

use crate::element::ClaimElement;
use crate::enclosures::enclosure_of;
use isotopologue_sets::ElementAtoms;
use multinomial_bounds::Enclosure;
use std::alloc::{AllocError, Global};
use std::marker::Model;

/// Isotopologues of some elements, each marked as one of a cover or not. The counts of all stand in one list, so that
/// none has a list of its own.
#[derive(Drop)]
pub struct ClaimedMembers {
    elements: Vec<ClaimElement>,
    /// How many isotopes the elements have together.
    isotopes: usize,
    counts: Vec<u32>,
    marks: Vec<bool>,
    enclosures: Vec<Enclosure>,
}

impl Model for ClaimedMembers {
    ghost use Rattle.std.specs.Prelude.{◌≡◌, ◌*◌, ℕ, All, length, map};
    ghost use Rattle.multinomial_bounds.specs.Isotopologue.{IsIsotopologue};
    ghost use Rattle.isotopologue_sets.specs.Layers.{AreElements, lo_of, hi_of};
    ghost use Rattle.cover_claims.specs.CountsInRow.{isotopes_of_all};
    ghost use Rattle.cover_claims.specs.Claims.{Claimed, isotopologues_in};
    ghost use Rattle.cover_claims.specs.MemberRows.{member_rows, AreBounded};

    ghost Value = { Claimed };

    ghost view = { λ m. record {
      elements = m.elements.items;
      members = member_rows m.elements.items m.counts.items m.marks.items;
    } };

    ghost invariant = { λ m. AreElements m.elements.items
        × (m.isotopes ≡ isotopes_of_all m.elements.items)
        × (length m.counts.items ≡ length m.marks.items * m.isotopes)
        × All (IsIsotopologue m.elements.items)
        (isotopologues_in (member_rows m.elements.items m.counts.items m.marks.items))
        × AreBounded m.elements.items (isotopologues_in (member_rows m.elements.items m.counts.items m.marks.items))
        m.enclosures.items };
}

impl ClaimedMembers {
    ghost use Rattle.std.specs.Prelude.{◌≡◌, ◌*◌, ◌<◌, All, IfOk, length, slice_index_or};
    ghost use Rattle.multinomial_bounds.specs.Isotopologue.{IsIsotopologue};
    ghost use Rattle.isotopologue_sets.specs.Layers.{AreElements, lo_of, hi_of};
    ghost use Rattle.cover_claims.specs.CountsInRow.{isotopes_of_all, counts_by_element};
    ghost use Rattle.cover_claims.specs.Claims.{ClaimedMember, isotopologues_in, member_at};
    ghost use Rattle.cover_claims.specs.MemberRows.{member_rows};

    /// The isotopologues of some elements whose counts stand end to end, one for each mark. It takes time in proportion
    /// to the moves of one atom that lead to them from the mode, and fails only for want of memory.
    pub fn of(
        alloc: Global,
        elements: Vec<ElementAtoms>,
        counts: Vec<u32>,
        marks: Vec<bool>,
    ) -> Result<ClaimedMembers, AllocError>
        requires elements { AreElements elements.items }
        requires rows { length counts.items ≡ length marks.items * isotopes_of_all elements.items }
        requires isotopologues { All (IsIsotopologue elements.items)
            (isotopologues_in (member_rows elements.items counts.items marks.items)) }
        ensures { IfOk result (λ m. m ≡ record {
          elements = elements.items;
          members = member_rows elements.items counts.items marks.items;
        }) }
    {
        let elements = claim_elements(alloc, elements)?;
        let isotopes = isotopes_of(&elements);
        let enclosures = enclosures_of(alloc, &elements, isotopes, &counts, &marks)?;
        Ok(ClaimedMembers {
            elements,
            isotopes,
            counts,
            marks,
            enclosures,
        })
    }

    /// How many isotopologues there are.
    pub fn len(&self) -> usize
        ensures { result ≡ length self.now.members }
    {
        self.marks.len()
    }

    /// The elements.
    pub(crate) fn elements(&self) -> &[ClaimElement]
        ensures value { result.now ≡ self.now.elements }
        ensures within_limits { AreElements self.now.elements }
        ensures isotopologues { All (IsIsotopologue self.now.elements) (isotopologues_in self.now.members) }
    {
        &self.elements
    }

    /// The counts of the isotopologue at a place.
    pub(crate) fn row(&self, place: usize) -> &[u32]
        requires { place < length self.now.members }
        ensures length { length result.now ≡ isotopes_of_all self.now.elements }
        ensures counts { counts_by_element self.now.elements result.now ≡ member_at (isotopologues_in self.now.members) place }
    {
        row_at(&self.counts, self.isotopes, place)
    }

    /// Whether the isotopologue at a place is marked.
    pub(crate) fn is_marked(&self, place: usize) -> bool
        requires { place < length self.now.members }
        ensures { (d : ClaimedMember) → result ≡ (slice_index_or self.now.members place d).marked }
    {
        self.marks[place]
    }

    /// The enclosure of the isotopologue at a place.
    pub(crate) fn enclosure(&self, place: usize) -> Enclosure
        requires { place < length self.now.members }
        ensures lo { result.lo ≡ lo_of self.now.elements (member_at (isotopologues_in self.now.members) place) }
        ensures hi { result.hi ≡ hi_of self.now.elements (member_at (isotopologues_in self.now.members) place) }
    {
        self.enclosures[place]
    }
}

ghost use Rattle.std.specs.Prelude.{◌≡◌, ◌+◌, ◌*◌, ◌<◌, ◌≤◌, All, IfOk, length, take, drop};
ghost use Rattle.multinomial_bounds.specs.Isotopologue.{IsIsotopologue};
ghost use Rattle.isotopologue_sets.specs.Layers.{AreElements};
ghost use Rattle.cover_claims.specs.CountsInRow.{isotopes_of_all};
ghost use Rattle.cover_claims.specs.Claims.{isotopologues_in};
ghost use Rattle.cover_claims.specs.MemberRows.{member_rows, AreBounded};

/// The elements with their modes.
fn claim_elements(
    alloc: Global,
    elements: Vec<ElementAtoms>,
) -> Result<Vec<ClaimElement>, AllocError>
    ensures { IfOk result (λ v. v.items ≡ elements.items) }
{
    let mut with_modes = Vec::new(alloc);
    for element in elements {
        with_modes.push(ClaimElement::of(alloc, element)?)?;
    }
    Ok(with_modes)
}

/// How many isotopes the elements have together.
fn isotopes_of(elements: &[ClaimElement]) -> usize
    requires { length elements.now ≤ 20 }
    ensures { result ≡ isotopes_of_all elements.now }
{
    let mut isotopes = 0;
    for element in elements {
        isotopes += element.isotopes();
    }
    isotopes
}

/// The counts at a place, of counts that stand end to end.
fn row_at(counts: &[u32], isotopes: usize, place: usize) -> &[u32]
    requires { place * isotopes + isotopes ≤ length counts.now }
    ensures { result.now ≡ take isotopes (drop (place * isotopes) counts.now) }
{
    let from = place * isotopes;
    &counts[from..from + isotopes]
}

/// The enclosures of isotopologues whose counts stand end to end.
fn enclosures_of(
    alloc: Global,
    elements: &[ClaimElement],
    isotopes: usize,
    counts: &[u32],
    marks: &[bool],
) -> Result<Vec<Enclosure>, AllocError>
    requires width { isotopes ≡ isotopes_of_all elements.now }
    requires rows { length counts.now ≡ length marks.now * isotopes }
    requires isotopologues { All (IsIsotopologue elements.now)
        (isotopologues_in (member_rows elements.now counts.now marks.now)) }
    ensures { IfOk result (λ v.
        AreBounded elements.now (isotopologues_in (member_rows elements.now counts.now marks.now)) v.items) }
{
    let mut enclosures = Vec::new(alloc);
    for place in 0..marks.len() {
        enclosures.push(enclosure_of(alloc, elements, row_at(counts, isotopes, place))?)?;
    }
    Ok(enclosures)
}
