//! A certificate, and a line of it that lists an isotopologue.

use formula_text::Formula;
use std::marker::Model;

/// A line that lists an isotopologue: its text, and whether it is marked as one of the cover.
#[derive(Debug, Drop)]
pub struct CertLine {
    marked: bool,
    text: Vec<u8>,
}

impl Model for CertLine {
    ghost use Rattle.certificate_text.specs.Certificates.{CertLineEntry};

    ghost Value = { CertLineEntry };

    ghost view = { λ line. record { marked = line.marked; text = line.text.items } };
}

impl CertLine {
    ghost use Rattle.std.specs.Prelude.{◌≡◌};

    /// The line of a text with its mark.
    pub(crate) fn of(marked: bool, text: Vec<u8>) -> CertLine
        ensures { result ≡ record { marked = marked; text = text.items } }
    {
        CertLine { marked, text }
    }

    /// Whether it is marked as one of the cover.
    pub fn marked(&self) -> bool
        ensures { result ≡ self.now.marked }
    {
        self.marked
    }

    /// The text behind the mark, which may be any bytes but a line feed.
    pub fn text(&self) -> &[u8]
        ensures { result.now ≡ self.now.text }
    {
        &self.text
    }
}

/// A certificate: its formula, what it claims, and the isotopologues that it lists.
#[derive(Debug, Drop)]
pub struct Certificate {
    formula: Formula,
    coverage: u64,
    size: u64,
    bound: u64,
    threshold: u64,
    lines: Vec<CertLine>,
}

impl Model for Certificate {
    ghost use Rattle.certificate_text.specs.Certificates.{CertificateEntries};

    ghost Value = { CertificateEntries };

    ghost view = { λ c. record {
      formula = c.formula;
      coverage = c.coverage;
      size = c.size;
      bound = c.bound;
      threshold = c.threshold;
      lines = c.lines.items;
    } };
}

impl Certificate {
    ghost use Rattle.std.specs.Prelude.{◌≡◌};

    /// The certificate of these parts.
    pub(crate) fn of(
        formula: Formula,
        coverage: u64,
        size: u64,
        bound: u64,
        threshold: u64,
        lines: Vec<CertLine>,
    ) -> Certificate
        ensures { result ≡ record {
          formula = formula;
          coverage = coverage;
          size = size;
          bound = bound;
          threshold = threshold;
          lines = lines.items;
        } }
    {
        Certificate {
            formula,
            coverage,
            size,
            bound,
            threshold,
            lines,
        }
    }

    /// The formula of which it speaks.
    pub fn formula(&self) -> &Formula
        ensures { result.now ≡ self.now.formula }
    {
        &self.formula
    }

    /// The coverage that the marked isotopologues are to have, in units of 10^-18.
    pub fn coverage(&self) -> u64
        ensures { result ≡ self.now.coverage }
    {
        self.coverage
    }

    /// How many isotopologues are to be marked.
    pub fn size(&self) -> u64
        ensures { result ≡ self.now.size }
    {
        self.size
    }

    /// A number such that no set of fewer isotopologues is to have the coverage.
    pub fn bound(&self) -> u64
        ensures { result ≡ self.now.bound }
    {
        self.bound
    }

    /// What the probability of each isotopologue that isn't listed is to be at most, in units of 10^-18.
    pub fn threshold(&self) -> u64
        ensures { result ≡ self.now.threshold }
    {
        self.threshold
    }

    /// The listed isotopologues in their order.
    pub fn lines(&self) -> &[CertLine]
        ensures { result.now ≡ self.now.lines }
    {
        &self.lines
    }
}
