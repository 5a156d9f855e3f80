//! A report that is printed as JSON.
ghost use Rattle.std.specs.Prelude.{◌≡◌, [], ◌∷◌, ◌++◌, All, IfOk, IsTrue, OnErr, OnOk, is_some};
ghost use Rattle.formula_text.specs.Masses.{HasItems};
ghost use Rattle.adducts.specs.Ions.{ion_of};
ghost use Rattle.report_lines.specs.ReportLines.{IsPrintedWith, cover_members};
ghost use Rattle.serde.specs.Event.{WritesSeq};
ghost use Rattle.serde_json.specs.Events.{SendsValue};
ghost use Rattle.serde_json.specs.Written.{compact_text};
ghost use Rattle.report_text.specs.JsonReports.{IsOfFormulas, IsOfJobs, cover_entry, json_text, report_data};
ghost use Rattle.report_text.specs.JsonReports.{with_job, with_peak};
ghost use Rattle.report_text.specs.Sent.{SendsOnly};

use crate::decompose_entries::PeakEntry;
use crate::entries::Entries;
use crate::envelope_entries::CoverEntry;
use crate::member::send_member;
use crate::rank_entries::JobEntry;
use adducts::Adduct;
use cover_certificate::Cover;
use element_table::Table;
use formula_text::Formula;
use ranking::Ranked;
use serde::{Described, Serialize, Serializer};
use std::alloc::{AllocError, Global};

/// A report that is printed as JSON: of the formulas of peaks, of a cover, or of ranked
/// peaks.
#[derive(Drop)]
pub enum Report {
    /// The peaks with their formulas.
    Decompose(Entries<PeakEntry>),
    /// A cover with its isotopologues.
    Envelope(CoverEntry),
    /// The jobs with what they found.
    Rank(Entries<JobEntry>),
}

impl Report {
    /// A report of no peak.
    pub fn decompose(alloc: Global) -> Report
        ensures { result ≡ Report.Decompose [] }
    {
        Report::Decompose(Entries::new(alloc))
    }

    /// A report of no job.
    pub fn rank(alloc: Global) -> Report
        ensures { result ≡ Report.Rank [] }
    {
        Report::Rank(Entries::new(alloc))
    }

    /// The report of a cover, with the shift added to each mass.
    pub fn envelope(alloc: Global, cover: &Cover, shift: i128) -> Result<Report, AllocError>
        requires { All (IsPrintedWith shift) (cover_members cover.now) }
        ensures { IfOk result (λ report. report ≡ Report.Envelope (cover_entry shift cover.now)) }
    {
        Ok(Report::Envelope(CoverEntry::of(alloc, cover, shift)?))
    }

    /// Appends the next peak, numbered from 1, with its formulas. The m/z is in 10^-12 Da. The report is one of
    /// formulas, the ions are defined, and the table has each item. Without memory for it the report stays as it was.
    pub fn add_peak(
        &mut self,
        alloc: Global,
        table: &Table,
        adduct: &Adduct,
        mz: u64,
        formulas: &[Formula],
    ) -> Result<(), AllocError>
        requires kind { IsOfFormulas self.old }
        requires known { All (HasItems table.now) formulas.now }
        requires added_known { HasItems table.now adduct.now.added }
        requires lost_known { HasItems table.now adduct.now.lost }
        requires defined { All (λ f. IsTrue (is_some (ion_of adduct.now f))) formulas.now }
        ensures added { OnOk result (self.new ≡ with_peak table.now adduct.now mz formulas.now self.old) }
        ensures refused { OnErr result (self.new ≡ self.old) }
    {
        match self {
            Report::Decompose(peaks) => {
                let number = peaks.as_slice().len() as u64 + 1;
                peaks.push(PeakEntry::of(alloc, table, adduct, number, mz, formulas)?)
            }
            Report::Envelope(_) | Report::Rank(_) => unreachable!(),
        }
    }

    /// Appends a job: the number of its peak, the m/z of that in 10^-12 Da, whether it is done, and the formulas that
    /// it found, which may stand in any order. The report is one of ranked peaks. Without memory for it the report
    /// stays as it was.
    pub fn add_job(
        &mut self,
        alloc: Global,
        peak: u64,
        mz: u64,
        done: bool,
        found: &[Ranked],
    ) -> Result<(), AllocError>
        requires kind { IsOfJobs self.old }
        ensures added { OnOk result (self.new ≡ with_job peak mz done found.now self.old) }
        ensures refused { OnErr result (self.new ≡ self.old) }
    {
        match self {
            Report::Rank(jobs) => jobs.push(JobEntry::of(alloc, peak, mz, done, found)?),
            Report::Decompose(_) | Report::Envelope(_) => unreachable!(),
        }
    }
}

impl Described for Report {
    ghost writes = { λ report. SendsValue (report_data report) };
}

impl Serialize for Report {
    fn serialize<S: Serializer>(&self, out: &mut S) -> Result<(), S::Error> {
        match self {
            Report::Decompose(peaks) => send_only(out, "peaks", peaks),
            Report::Envelope(cover) => cover.serialize(out),
            Report::Rank(jobs) => send_only(out, "jobs", jobs),
        }
    }
}

/// Sends an object of one list.
fn send_only<S: Serializer, T: Serialize + Drop>(
    out: &mut S,
    key: &str,
    entries: &Entries<T>,
) -> Result<(), S::Error>
    ensures { OnOk result (SendsOnly key.now (WritesSeq T.writes entries.now) (S.written out.old) (S.written out.new)) }
{
    out.begin_map(Some(1))?;
    send_member(out, key, entries)?;
    out.end_map()
}

/// The report as one line of JSON: the compact text of its value, the keys in the order of their bytes, and a line
/// feed.
pub fn json_text(alloc: Global, report: &Report) -> Result<Vec<u8>, AllocError>
    ensures { IfOk result (λ text. text.items ≡ json_text report.now) }
{
    let mut text = compact_text(alloc, report)?;
    text.push(b'\n')?;
    Ok(text)
}

/// The report as JSON without blanks.
fn compact_text(alloc: Global, report: &Report) -> Result<Vec<u8>, AllocError>
    ensures { IfOk result (λ text. text.items ≡ compact_text (report_data report.now)) }
{
    match serde_json::to_vec(alloc, report) {
        Ok(text) => Ok(text),
        // Nothing but want of memory keeps a report from being written.
        Err(_) => Err(AllocError),
    }
}
