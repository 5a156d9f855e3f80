//! The entries of the report of a cover in JSON.
ghost use Rattle.std.specs.Prelude.{◌≡◌, All, IfOk, map};
ghost use Rattle.report_lines.specs.ReportLines.{IsPrintedWith, cover_members};
ghost use Rattle.serde_json.specs.Events.{SendsValue};
ghost use Rattle.report_text.specs.JsonReports.{cover_data, cover_entry, isotopologue_data, isotopologue_entry};

use crate::entries::Entries;
use crate::member::send_member;
use crate::text::Text;
use cover_certificate::{Cover, CoverMember};
use report_lines::{Word, ion_mass_word};
use serde::{Described, Serialize, Serializer};
use std::alloc::{AllocError, Global};

/// An isotopologue: its text, its mass and the bounds of its probability.
#[derive(Drop)]
pub struct IsotopologueEntry {
    hi: Text,
    isotopologue: Text,
    lo: Text,
    mass: Text,
}

impl IsotopologueEntry {
    /// The entry of a member of a cover, with the shift added to its mass.
    fn of(alloc: Global, member: &CoverMember, shift: i128) -> Result<IsotopologueEntry, AllocError>
        requires { IsPrintedWith shift member.now }
        ensures { IfOk result (λ entry. entry ≡ isotopologue_entry shift member.now) }
    {
        let mass = i128::from(member.mass()) + shift;
        let enclosure = member.enclosure();
        Ok(IsotopologueEntry {
            hi: Text::of(alloc, &Word::Number(enclosure.hi))?,
            isotopologue: Text::of(alloc, &Word::Text(member.text()))?,
            lo: Text::of(alloc, &Word::Number(enclosure.lo))?,
            mass: Text::of(alloc, &ion_mass_word(mass))?,
        })
    }
}

impl Described for IsotopologueEntry {
    ghost writes = { λ entry. SendsValue (isotopologue_data entry) };
}

impl Serialize for IsotopologueEntry {
    fn serialize<S: Serializer>(&self, out: &mut S) -> Result<(), S::Error> {
        out.begin_map(Some(4))?;
        send_member(out, "hi", &self.hi)?;
        send_member(out, "isotopologue", &self.isotopologue)?;
        send_member(out, "lo", &self.lo)?;
        send_member(out, "mass", &self.mass)?;
        out.end_map()
    }
}

/// A cover: its formula, coverage, size, bound and threshold, and its isotopologues.
#[derive(Drop)]
pub struct CoverEntry {
    bound: u64,
    coverage: Text,
    formula: Text,
    isotopologues: Entries<IsotopologueEntry>,
    size: u64,
    threshold: Text,
}

impl CoverEntry {
    /// The entry of a cover, with the shift added to each mass.
    pub fn of(alloc: Global, cover: &Cover, shift: i128) -> Result<CoverEntry, AllocError>
        requires { All (IsPrintedWith shift) (cover_members cover.now) }
        ensures { IfOk result (λ entry. entry ≡ cover_entry shift cover.now) }
    {
        let (members, _) = cover.layer().split_at(cover.size() as usize);
        Ok(CoverEntry {
            bound: cover.bound(),
            coverage: Text::of(alloc, &Word::Number(cover.coverage()))?,
            formula: Text::of(alloc, &Word::Formula(cover.formula().items()))?,
            isotopologues: isotopologue_entries(alloc, members, shift)?,
            size: cover.size(),
            threshold: Text::of(alloc, &Word::Number(cover.threshold()))?,
        })
    }
}

/// The entries of the members of a cover.
fn isotopologue_entries(
    alloc: Global,
    members: &[CoverMember],
    shift: i128,
) -> Result<Entries<IsotopologueEntry>, AllocError>
    requires { All (IsPrintedWith shift) members.now }
    ensures { IfOk result (λ entries. entries ≡ map (isotopologue_entry shift) members.now) }
{
    let mut entries = Entries::new(alloc);
    for member in members {
        entries.push(IsotopologueEntry::of(alloc, member, shift)?)?;
    }
    Ok(entries)
}

impl Described for CoverEntry {
    ghost writes = { λ entry. SendsValue (cover_data entry) };
}

impl Serialize for CoverEntry {
    fn serialize<S: Serializer>(&self, out: &mut S) -> Result<(), S::Error> {
        out.begin_map(Some(6))?;
        send_member(out, "bound", &self.bound)?;
        send_member(out, "coverage", &self.coverage)?;
        send_member(out, "formula", &self.formula)?;
        send_member(out, "isotopologues", &self.isotopologues)?;
        send_member(out, "size", &self.size)?;
        send_member(out, "threshold", &self.threshold)?;
        out.end_map()
    }
}
