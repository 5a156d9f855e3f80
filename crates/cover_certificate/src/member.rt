//! One isotopologue of a layer.

use crate::numbered::NumberedCover;
use multinomial_bounds::Enclosure;
use std::alloc::{AllocError, Global};
use std::marker::Model;

/// One isotopologue of a layer, as it is printed.
#[derive(Debug, Drop)]
pub struct CoverMember {
    counts: Vec<u32>,
    text: Vec<u8>,
    mass: u64,
    enclosure: Enclosure,
}

impl Model for CoverMember {
    ghost use Rattle.cover_certificate.specs.FormulaCovers.{MemberEntry};

    ghost Value = { MemberEntry };

    ghost view = { λ m. record {
      counts = m.counts.items;
      text = m.text.items;
      mass = m.mass;
      lo = m.enclosure.lo;
      hi = m.enclosure.hi;
    } };
}

impl CoverMember {
    ghost use Rattle.std.specs.Prelude.{◌≡◌};

    /// The counts of its isotopes: of each element of the formula's items without a label, in Hill order,
    /// those of its isotopes that occur, by rising mass number.
    pub fn counts(&self) -> &[u32]
        ensures { result.now ≡ self.now.counts }
    {
        &self.counts
    }

    /// Its isotopes with their counts, as `[12C]5[13C]`; `-` where every atom of the formula has a label.
    pub fn text(&self) -> &[u8]
        ensures { result.now ≡ self.now.text }
    {
        &self.text
    }

    /// Its mass in 10^-12 Da, the formula's labelled atoms included.
    pub fn mass(&self) -> u64
        ensures { result ≡ self.now.mass }
    {
        self.mass
    }

    /// Two numbers that its exact probability lies between, in units of 10^-18.
    pub fn enclosure(&self) -> Enclosure
        ensures lo { result.lo ≡ self.now.lo }
        ensures hi { result.hi ≡ self.now.hi }
    {
        self.enclosure
    }
}

ghost use Rattle.std.specs.Prelude.{◌≡◌, ◌<◌, IfOk, length, slice_index_or};
ghost use Rattle.cover_certificate.specs.FormulaCovers.{MemberEntry};

/// The members of the layer of a cover, with their texts.
pub(crate) fn members_of(
    alloc: Global,
    cover: &NumberedCover,
) -> Result<Vec<CoverMember>, AllocError>
    ensures { IfOk result (λ members. members.items ≡ cover.now.layer) }
{
    let mut members = Vec::with_capacity(alloc, cover.len())?;
    for place in 0..cover.len() {
        members.push(member_at(alloc, cover, place)?)?;
    }
    Ok(members)
}

/// The member at a place of the layer of a cover, with its text.
fn member_at(alloc: Global, cover: &NumberedCover, place: usize) -> Result<CoverMember, AllocError>
    requires { place < length cover.now.layer }
    ensures { IfOk result (λ m. (d : MemberEntry) → m ≡ slice_index_or cover.now.layer place d) }
{
    let mut text = Vec::new(alloc);
    cover.push_text(place, &mut text)?;
    Ok(CoverMember {
        counts: cover.counts(place).to_vec(alloc)?,
        text,
        mass: cover.mass(place),
        enclosure: cover.enclosure(place),
    })
}
