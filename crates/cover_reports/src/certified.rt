//! `envelope` with its certificate: the text of the certificate of a cover.
ghost use Rattle.std.specs.Prelude.{◌≡◌, ◌≤◌};
ghost use Rattle.command_words.specs.declared.options.TheConstants.{MIN_COVERAGE, MAX_COVERAGE};
ghost use Rattle.command_io.specs.Parts.{IsPart, Puts, shelved};
ghost use Rattle.command_io.specs.Refusals.{GivesInput};
ghost use Rattle.cover_reports.specs.Answers.{certified_query, envelope_names, short_enough};
ghost use Rattle.cover_reports.specs.Claims.{HoldsTrue, PassesCheck};
ghost use Rattle.cover_reports.specs.Reports.{asked_cover, certificate_report};

use crate::envelope::{Envelope, EnvelopeOptions};
use command_io::{Refusal, put_text};
use outside_ports::{Shelf, Sink};
use std::alloc::Global;
use std::marker::Model;

/// The text of the certificate of a cover, with what it was made of. It is seen as the query for that cover.
#[derive(Drop)]
pub struct CertifiedCover {
    envelope: Envelope,
    text: Vec<u8>,
}

impl Model for CertifiedCover {
    ghost use Rattle.std.specs.Prelude.{◌≡◌};
    ghost use Rattle.cover_reports.specs.Claims.{HoldsTrue, PassesCheck};
    ghost use Rattle.cover_reports.specs.Queries.{CoverQuery};
    ghost use Rattle.cover_reports.specs.Reports.{asked_cover, certificate_report};

    ghost Value = { CoverQuery };

    ghost view = { λ c. c.envelope };

    ghost invariant = { λ c. (c.text.items ≡ certificate_report c.envelope)
        × HoldsTrue c.envelope.table (asked_cover c.envelope) × PassesCheck c.envelope.table (asked_cover c.envelope) };
}

impl CertifiedCover {
    /// Reads what an envelope is over, and makes the certificate of its cover. One of more than 268,435,456 bytes is
    /// refused.
    pub fn read<H: Shelf>(
        alloc: Global,
        options: &EnvelopeOptions,
        shelf: &mut H,
    ) -> Result<CertifiedCover, Refusal>
        requires from { MIN_COVERAGE ≤ options.now.coverage }
        requires to { options.now.coverage ≤ MAX_COVERAGE }
        ensures { IsPart (λ c. c) (envelope_names options.now) (certified_query options.now)
            (shelved (H.held shelf.old) (H.asked shelf.old) (H.faults shelf.old))
            (shelved (H.held shelf.new) (H.asked shelf.new) (H.faults shelf.new)) result }
    {
        let envelope = Envelope::read(alloc, options, shelf)?;
        CertifiedCover::of(alloc, envelope)
    }

    /// The certificate of an envelope's cover.
    fn of(alloc: Global, envelope: Envelope) -> Result<CertifiedCover, Refusal>
        ensures { GivesInput (λ c. c) (short_enough envelope) result }
    {
        let text = envelope.certificate(alloc)?;
        Ok(CertifiedCover { envelope, text })
    }

    /// Puts the certificate, line by line.
    pub fn write<O: Sink>(&self, out: &mut O) -> Result<(), Refusal>
        ensures puts { Puts (certificate_report self.now)
            (O.written out.old) (O.written out.new) (O.faults out.old) (O.faults out.new) result }
        ensures holds { HoldsTrue self.now.table (asked_cover self.now) }
        ensures passes { PassesCheck self.now.table (asked_cover self.now) }
    {
        put_text(&self.text, out)
    }
}
