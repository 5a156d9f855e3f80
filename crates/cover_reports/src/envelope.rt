//! `envelope`: the cover of an ion.
ghost use Rattle.std.specs.Prelude.{◌≡◌, ◌<◌, ◌≤◌, ℤ, All, IfOk, OnOk, length, slice_index_or};
ghost use Rattle.std.specs.List.{flat_map};
ghost use Rattle.command_words.specs.declared.options.TheConstants.{MIN_COVERAGE, MAX_COVERAGE};
ghost use Rattle.element_table.specs.Elements.{IsTable};
ghost use Rattle.formula_text.specs.Formulas.{IsFormula};
ghost use Rattle.formula_text.specs.Masses.{HasItems};
ghost use Rattle.cover_certificate.specs.FormulaCovers.{MemberEntry};
ghost use Rattle.report_lines.specs.ReportLines.{IsPrintedWith, cover_members, isotopologue_line};
ghost use Rattle.command_io.specs.Parts.{IsPart, Puts, shelved};
ghost use Rattle.command_io.specs.Refusals.{GivesInput};
ghost use Rattle.cover_reports.specs.Answers.{certificate_text, cover_query, electron_shift, envelope_names};
ghost use Rattle.cover_reports.specs.Answers.{envelope_over, envelope_query};
ghost use Rattle.cover_reports.specs.Claims.{HoldsTrue, PassesCheck};
ghost use Rattle.cover_reports.specs.Inputs.{IsElectronShift};
ghost use Rattle.cover_reports.specs.Reports.{cover_json, asked_cover, cover_report};
ghost use Rattle.cover_reports.specs.Steps.{ion_step};

use adducts::{Adduct, ion_of};
use command_io::{InputFault, Refusal, adduct_in, put_line, put_text, table_of, traced_table};
use command_words::Word;
use cover_certificate::{
    CertificateWrite, Cover, CoverFault, NumberedCover, numbered_cover_of, write_certificate,
};
use element_table::Table;
use formula_text::{Formula, read_formula};
use outside_ports::{Shelf, Sink};
use report_lines::{numbered_head, push_isotopologue_words};
use report_text::{Report, json_text};
use std::alloc::{AllocError, Global};
use std::marker::Model;

/// The options of `envelope`, as its request has them.
#[derive(Drop)]
pub struct EnvelopeOptions {
    pub table: Word,
    pub tracer: Option<Word>,
    pub adduct: Word,
    pub formula: Word,
    pub coverage: u64,
}

/// The cover of an ion, with the table that it is over and what is added to each mass. It is seen as the query for it.
#[derive(Drop)]
pub struct Envelope {
    table: Table,
    cover: NumberedCover,
    shift: i128,
}

impl Model for Envelope {
    ghost use Rattle.std.specs.Prelude.{◌≡◌, All};
    ghost use Rattle.cover_certificate.specs.FormulaCovers.{cover_of};
    ghost use Rattle.report_lines.specs.ReportLines.{IsPrintedWith, cover_members};
    ghost use Rattle.cover_reports.specs.Claims.{HoldsTrue, PassesCheck};
    ghost use Rattle.cover_reports.specs.Inputs.{IsElectronShift};
    ghost use Rattle.cover_reports.specs.Queries.{CoverQuery};

    ghost Value = { CoverQuery };

    ghost view = { λ e. record {
      table = e.table;
      ion = e.cover.formula;
      shift = e.shift;
      coverage = e.cover.coverage;
    } };

    ghost invariant = { λ e. (e.cover ≡ cover_of e.table e.cover.formula e.cover.coverage)
        × HoldsTrue e.table e.cover
        × All (IsPrintedWith e.shift) (cover_members e.cover)
        × IsElectronShift e.shift
        × PassesCheck e.table e.cover };
}

impl Envelope {
    /// Reads what an envelope is over, and makes the cover. An ion with too many isotopologues is refused.
    pub fn read<H: Shelf>(
        alloc: Global,
        options: &EnvelopeOptions,
        shelf: &mut H,
    ) -> Result<Envelope, Refusal>
        requires from { MIN_COVERAGE ≤ options.now.coverage }
        requires to { options.now.coverage ≤ MAX_COVERAGE }
        ensures { IsPart (λ e. e) (envelope_names options.now) (envelope_query options.now)
            (shelved (H.held shelf.old) (H.asked shelf.old) (H.faults shelf.old))
            (shelved (H.held shelf.new) (H.asked shelf.new) (H.faults shelf.new)) result }
    {
        let table = table_of(alloc, &options.table, shelf)?;
        let traced = traced_table(alloc, table, &options.tracer, shelf)?;
        Envelope::over(alloc, traced, options)
    }

    /// The envelope over a table.
    fn over(alloc: Global, table: Table, options: &EnvelopeOptions) -> Result<Envelope, Refusal>
        requires from { MIN_COVERAGE ≤ options.now.coverage }
        requires to { options.now.coverage ≤ MAX_COVERAGE }
        ensures { GivesInput (λ e. e) (envelope_over options.now table) result }
    {
        let adduct = adduct_in(alloc, &table, &options.adduct)?;
        let ion = ion_in(alloc, &table, &options.formula, &adduct)?;
        let shift = electron_shift(&table, &adduct);
        Envelope::of_ion(alloc, table, ion, shift, options.coverage)
    }

    /// The envelope of an ion of the table.
    fn of_ion(
        alloc: Global,
        table: Table,
        ion: Formula,
        shift: i128,
        coverage: u64,
    ) -> Result<Envelope, Refusal>
        requires table { IsTable table }
        requires formula { IsFormula ion }
        requires known { HasItems table ion }
        requires shift { IsElectronShift shift }
        requires from { MIN_COVERAGE ≤ coverage }
        requires to { coverage ≤ MAX_COVERAGE }
        ensures { GivesInput (λ e. e) (cover_query table ion shift coverage) result }
    {
        match numbered_cover_of(alloc, &table, &ion, coverage) {
            Ok(cover) => Ok(Envelope {
                table,
                cover,
                shift,
            }),
            Err(CoverFault::Memory) => Err(Refusal::Memory),
            Err(CoverFault::TooMany { .. }) => Err(Refusal::Input(InputFault::Layer(ion))),
        }
    }

    /// The text of the certificate of the cover. One of more than 268,435,456 bytes is refused.
    pub fn certificate(&self, alloc: Global) -> Result<Vec<u8>, Refusal>
        ensures text { GivesInput (λ text. text.items) (certificate_text self.now) result }
        ensures holds { HoldsTrue self.now.table (asked_cover self.now) }
        ensures passes { PassesCheck self.now.table (asked_cover self.now) }
    {
        let cover = Cover::of_numbered(alloc, &self.cover)?;
        match write_certificate(alloc, &cover) {
            Ok(text) => Ok(text),
            Err(CertificateWrite::TooLong) => Err(Refusal::Input(InputFault::CertificateLimit)),
            Err(CertificateWrite::Memory) => Err(Refusal::Memory),
        }
    }

    /// Puts the report, line by line.
    pub fn write<O: Sink>(&self, alloc: Global, out: &mut O) -> Result<(), Refusal>
        ensures puts { Puts (cover_report self.now)
            (O.written out.old) (O.written out.new) (O.faults out.old) (O.faults out.new) result }
        ensures holds { HoldsTrue self.now.table (asked_cover self.now) }
    {
        put_text(&numbered_head(alloc, &self.cover)?, out)?;
        put_members(alloc, &self.cover, self.shift, out)
    }

    /// Puts the report as one line of JSON.
    pub fn write_json<O: Sink>(&self, alloc: Global, out: &mut O) -> Result<(), Refusal>
        ensures puts { Puts (cover_json self.now)
            (O.written out.old) (O.written out.new) (O.faults out.old) (O.faults out.new) result }
        ensures holds { HoldsTrue self.now.table (asked_cover self.now) }
    {
        let cover = Cover::of_numbered(alloc, &self.cover)?;
        let report = Report::envelope(alloc, &cover, self.shift)?;
        put_line(&json_text(alloc, &report)?, out)
    }
}

/// The ion of the formula that a text is.
fn ion_in(alloc: Global, table: &Table, text: &Word, adduct: &Adduct) -> Result<Formula, Refusal>
    requires { HasItems table.now adduct.now.added }
    ensures ion { GivesInput (λ ion. ion) (ion_step table.now adduct.now text.now) result }
    ensures formula { IfOk result IsFormula }
    ensures known { IfOk result (HasItems table.now) }
{
    let formula = read_formula(alloc, table, text.text().as_bytes())?;
    match ion_of(alloc, &formula, adduct)? {
        Some(ion) => Ok(ion),
        None => Err(Refusal::Input(InputFault::NoIon)),
    }
}

/// What is added to the mass of each isotopologue of an ion of the adduct, in 10^-12 Da: the mass of as many electrons
/// as its charge says is taken off.
fn electron_shift(table: &Table, adduct: &Adduct) -> i128
    ensures shift { result ≡ electron_shift table.now adduct.now }
    ensures small { IsElectronShift result }
    ensures table { IsTable table.now }
{
    -(i128::from(adduct.charge()) * i128::from(table.electron()))
}

/// Puts the lines of the members of a cover.
fn put_members<O: Sink>(
    alloc: Global,
    cover: &NumberedCover,
    shift: i128,
    out: &mut O,
) -> Result<(), Refusal>
    requires { All (IsPrintedWith shift) (cover_members cover.now) }
    ensures { Puts (flat_map (isotopologue_line shift) (cover_members cover.now))
        (O.written out.old) (O.written out.new) (O.faults out.old) (O.faults out.new) result }
{
    let mut text = Vec::new(alloc);
    let mut line = Vec::new(alloc);
    for place in 0..cover.size() as usize {
        write_member(cover, place, shift, &mut text, &mut line)?;
        put_line(&line, out)?;
    }
    Ok(())
}

/// Makes the line of the member at a place of a cover, and its text. Both are used again.
fn write_member(
    cover: &NumberedCover,
    place: usize,
    shift: i128,
    text: &mut Vec<u8>,
    line: &mut Vec<u8>,
) -> Result<(), AllocError>
    requires within { place < length cover.now.layer }
    requires printed { (d : MemberEntry) → IsPrintedWith shift (slice_index_or cover.now.layer place d) }
    ensures { OnOk result ((d : MemberEntry) →
        line.new.items ≡ isotopologue_line shift (slice_index_or cover.now.layer place d)) }
{
    text.clear();
    cover.push_text(place, text)?;
    line.clear();
    let mass = cover.mass(place);
    let enclosure = cover.enclosure(place);
    push_isotopologue_words(
        line,
        text.as_slice(),
        mass,
        enclosure.lo,
        enclosure.hi,
        shift,
    )
}
