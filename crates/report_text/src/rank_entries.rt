//! The entries of the report of ranked peaks in JSON.
ghost use Rattle.std.specs.Prelude.{◌≡◌, IfOk, map};
ghost use Rattle.std.specs.List.{enumerate_from};
ghost use Rattle.serde_json.specs.Events.{SendsValue};
ghost use Rattle.report_text.specs.JsonReports.{job_data, job_entry, place_data, place_entry};

use crate::entries::Entries;
use crate::member::send_member;
use crate::rank::in_order;
use crate::text::Text;
use ranking::Ranked;
use report_lines::Word;
use serde::{Described, Serialize, Serializer};
use std::alloc::{AllocError, Global};

/// A place: the formula that has it, its score, and the size and the bound of its ion's cover.
#[derive(Drop)]
pub struct PlaceEntry {
    bound: u64,
    formula: Text,
    place: u64,
    score: Text,
    size: u64,
}

impl PlaceEntry {
    /// The entry of a formula at a place.
    fn of(alloc: Global, place: u64, ranked: &Ranked) -> Result<PlaceEntry, AllocError>
        ensures { IfOk result (λ entry. entry ≡ place_entry (place, ranked.now)) }
    {
        Ok(PlaceEntry {
            bound: ranked.bound(),
            formula: Text::of(alloc, &Word::Formula(ranked.formula().items()))?,
            place,
            score: Text::of(alloc, &Word::Number(ranked.score()))?,
            size: ranked.size(),
        })
    }
}

impl Described for PlaceEntry {
    ghost writes = { λ entry. SendsValue (place_data entry) };
}

impl Serialize for PlaceEntry {
    fn serialize<S: Serializer>(&self, out: &mut S) -> Result<(), S::Error> {
        out.begin_map(Some(5))?;
        send_member(out, "bound", &self.bound)?;
        send_member(out, "formula", &self.formula)?;
        send_member(out, "place", &self.place)?;
        send_member(out, "score", &self.score)?;
        send_member(out, "size", &self.size)?;
        out.end_map()
    }
}

/// A job: its peak, the m/z of that, whether it is done, and the places of what it found.
#[derive(Drop)]
pub struct JobEntry {
    count: u64,
    done: bool,
    mz: Text,
    peak: u64,
    places: Entries<PlaceEntry>,
}

impl JobEntry {
    /// The entry of a job.
    pub fn of(
        alloc: Global,
        peak: u64,
        mz: u64,
        done: bool,
        found: &[Ranked],
    ) -> Result<JobEntry, AllocError>
        ensures { IfOk result (λ entry. entry ≡ job_entry peak mz done found.now) }
    {
        Ok(JobEntry {
            count: found.len() as u64,
            done,
            mz: Text::of(alloc, &Word::Mass(mz))?,
            peak,
            places: place_entries(alloc, &in_order(alloc, found)?)?,
        })
    }
}

/// The entries of formulas that stand in their places.
fn place_entries(alloc: Global, order: &[&Ranked]) -> Result<Entries<PlaceEntry>, AllocError>
    ensures { IfOk result (λ entries.
        entries ≡ map place_entry (enumerate_from 1 (map (λ r. r.now) order.now))) }
{
    let mut entries = Entries::new(alloc);
    for (i, ranked) in order.iter().enumerate() {
        entries.push(PlaceEntry::of(alloc, i as u64 + 1, ranked)?)?;
    }
    Ok(entries)
}

impl Described for JobEntry {
    ghost writes = { λ entry. SendsValue (job_data entry) };
}

impl Serialize for JobEntry {
    fn serialize<S: Serializer>(&self, out: &mut S) -> Result<(), S::Error> {
        out.begin_map(Some(5))?;
        send_member(out, "count", &self.count)?;
        send_member(out, "done", &self.done)?;
        send_member(out, "mz", &self.mz)?;
        send_member(out, "peak", &self.peak)?;
        send_member(out, "places", &self.places)?;
        out.end_map()
    }
}
