//! `check`: whether a certificate is accepted.
ghost use Rattle.std.specs.Prelude.{◌≡◌, ◌∷◌, [], IfOk};
ghost use Rattle.formula_text.specs.Masses.{HasItems};
ghost use Rattle.certificate_check.specs.CertificateMeaning.{CertificateMeans};
ghost use Rattle.command_io.specs.Parts.{IsPart, Puts, shelved};
ghost use Rattle.command_io.specs.Refusals.{GivesInput};
ghost use Rattle.cover_reports.specs.Answers.{check_names, check_over, check_query};
ghost use Rattle.cover_reports.specs.Reports.{accepted_report};
ghost use Rattle.cover_reports.specs.Steps.{certificate_in, certificate_step, judged_step};

use certificate_check::Judgement;
use command_io::{InputFault, Refusal, fetch_file, put_text, table_of, traced_table};
use command_words::Word;
use cover_certificate::{Certificate, read_certificate};
use element_table::Table;
use outside_ports::{Shelf, Sink};
use report_lines::push_accepted_line;
use std::alloc::Global;
use std::marker::Model;

/// The most bytes of the file of a certificate.
pub const MAX_CERTIFICATE_BYTES: u64 = 268_435_456;

/// The options of `check`, as its request has them.
#[derive(Drop)]
pub struct CheckOptions {
    pub table: Word,
    pub tracer: Option<Word>,
    pub certificate: Word,
}

/// A certificate that is accepted, with the table that it was judged by. It is seen as that query.
#[derive(Drop)]
pub struct Check {
    table: Table,
    certificate: Certificate,
}

impl Model for Check {
    ghost use Rattle.certificate_check.specs.CertificateMeaning.{CertificateMeans};
    ghost use Rattle.cover_reports.specs.Queries.{CheckQuery};

    ghost Value = { CheckQuery };

    ghost view = { λ c. record { table = c.table; certificate = c.certificate } };

    ghost invariant = { λ c. CertificateMeans c.table c.certificate };
}

impl Check {
    /// Reads what is checked, and judges it. A certificate that isn't accepted is refused.
    pub fn read<H: Shelf>(
        alloc: Global,
        options: &CheckOptions,
        shelf: &mut H,
    ) -> Result<Check, Refusal>
        ensures { IsPart (λ c. c) (check_names options.now) (check_query options.now)
            (shelved (H.held shelf.old) (H.asked shelf.old) (H.faults shelf.old))
            (shelved (H.held shelf.new) (H.asked shelf.new) (H.faults shelf.new)) result }
    {
        let table = table_of(alloc, &options.table, shelf)?;
        let traced = traced_table(alloc, table, &options.tracer, shelf)?;
        Check::over(alloc, traced, &options.certificate, shelf)
    }

    /// The check of a file by a table.
    fn over<H: Shelf>(
        alloc: Global,
        table: Table,
        name: &Word,
        shelf: &mut H,
    ) -> Result<Check, Refusal>
        ensures { IsPart (λ c. c) (name.now ∷ []) (check_over table name.now)
            (shelved (H.held shelf.old) (H.asked shelf.old) (H.faults shelf.old))
            (shelved (H.held shelf.new) (H.asked shelf.new) (H.faults shelf.new)) result }
    {
        let certificate = certificate_of(alloc, &table, name, shelf)?;
        Check::judged(alloc, table, certificate)
    }

    /// The check of a certificate by a table.
    fn judged(alloc: Global, table: Table, certificate: Certificate) -> Result<Check, Refusal>
        requires { HasItems table certificate.formula }
        ensures { GivesInput (λ c. c) (judged_step table certificate) result }
    {
        let judgement = certificate_check::check(alloc, &table, &certificate)?;
        match judgement {
            Judgement::Accepted => Ok(Check { table, certificate }),
            judgement => Err(Refusal::Input(InputFault::Rejected(judgement))),
        }
    }

    /// Puts the report.
    pub fn write<O: Sink>(&self, alloc: Global, out: &mut O) -> Result<(), Refusal>
        ensures puts { Puts (accepted_report self.now.certificate)
            (O.written out.old) (O.written out.new) (O.faults out.old) (O.faults out.new) result }
        ensures holds { CertificateMeans self.now.table self.now.certificate }
    {
        let mut line = Vec::new(alloc);
        push_accepted_line(&mut line, self.certificate.size(), self.certificate.bound())?;
        put_text(&line, out)
    }
}

/// The certificate that bytes are.
fn certificate_in(alloc: Global, table: &Table, bytes: &[u8]) -> Result<Certificate, Refusal>
    ensures certificate { GivesInput (λ certificate. certificate) (certificate_in table.now bytes.now) result }
    ensures known { IfOk result (λ certificate. HasItems table.now certificate.formula) }
{
    Ok(read_certificate(alloc, table, bytes)?)
}

/// The certificate of a file.
fn certificate_of<H: Shelf>(
    alloc: Global,
    table: &Table,
    name: &Word,
    shelf: &mut H,
) -> Result<Certificate, Refusal>
    ensures part { IsPart (λ certificate. certificate) (name.now ∷ []) (certificate_step table.now name.now)
        (shelved (H.held shelf.old) (H.asked shelf.old) (H.faults shelf.old))
        (shelved (H.held shelf.new) (H.asked shelf.new) (H.faults shelf.new)) result }
    ensures known { IfOk result (λ certificate. HasItems table.now certificate.formula) }
{
    let bytes = fetch_file(alloc, name, MAX_CERTIFICATE_BYTES, shelf)?;
    certificate_in(alloc, table, &bytes)
}
