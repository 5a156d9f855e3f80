//! What is judged of a certificate, and what a note says of it.

ghost use Rattle.std.specs.Prelude.{◌≡◌, IfOk};
ghost use Rattle.certificate_check.specs.JudgementWords.{boundary_words, judgement_words, size_words};

use std::alloc::{AllocError, Global};
use std::marker::Model;

/// The text of an isotopologue.
#[derive(Debug, Drop)]
pub struct Text {
    bytes: Vec<u8>,
}

impl Model for Text {
    ghost use Rattle.std.specs.Prelude.{List, ℕ};

    ghost Value = { List ℕ };

    ghost view = { λ t. t.bytes.items };
}

impl Text {
    ghost use Rattle.std.specs.Prelude.{◌≡◌};

    pub(crate) fn of(bytes: Vec<u8>) -> Text
        ensures { result ≡ bytes.items }
    {
        Text { bytes }
    }

    /// The bytes of the text.
    pub fn as_bytes(&self) -> &[u8]
        ensures { result.now ≡ self.now }
    {
        &self.bytes
    }
}

/// The judgement of a certificate: that it is accepted, or the first test that it fails. Lines are numbered from 1; the
/// numbers are in units of 10^-18.
#[derive(Debug, Drop)]
pub enum Judgement {
    /// No test fails, so what the certificate claims is true.
    Accepted,
    /// The coverage isn't from 1 to 999,999,000,000,000,000.
    CoverageRange { said: u64 },
    /// There are so many lines of isotopologues, which is more than 1,048,576.
    TooManyMembers { found: u64 },
    /// The text of this line isn't the printed text of an isotopologue of the formula.
    NotOfFormula { line: u64 },
    /// The isotopologue of this line doesn't come after the one before it.
    OutOfOrder { line: u64 },
    /// The isotopologue of all modes isn't listed.
    ModeAbsent,
    /// A move of one atom from the isotopologue of this line leads to one that isn't listed, with this text, whose upper
    /// bound is above the threshold.
    OpenBoundary { line: u64, neighbour: Text, hi: u64 },
    /// So many lines are marked, where another size was said.
    SizeDiffers { said: u64, found: u64 },
    /// The lower bounds of the marked isotopologues total this, which is below the coverage.
    CoverShort { total: u128 },
    /// As many of the greatest upper bounds as are one less than the bound total this, which is the coverage or more.
    BoundTooHigh { total: u128 },
}

impl Judgement {
    /// What a note says of the judgement, behind `isoform: certificate: `.
    pub fn words(&self, alloc: Global) -> Result<Vec<u8>, AllocError>
        ensures { IfOk result (λ words. words.items ≡ judgement_words self.now) }
    {
        match self {
            Judgement::OpenBoundary {
                line,
                neighbour,
                hi,
            } => boundary_words(alloc, *line, neighbour.as_bytes(), *hi),
            Judgement::Accepted => Vec::from_slice(alloc, b"accepted"),
            Judgement::CoverageRange { said } => {
                Ok(format!(in alloc; "coverage range: {said}")?.into_bytes())
            }
            Judgement::TooManyMembers { found } => {
                Ok(format!(in alloc; "too many members: {found}")?.into_bytes())
            }
            Judgement::NotOfFormula { line } => {
                Ok(format!(in alloc; "not of formula: line {line}")?.into_bytes())
            }
            Judgement::OutOfOrder { line } => {
                Ok(format!(in alloc; "out of order: line {line}")?.into_bytes())
            }
            Judgement::ModeAbsent => Vec::from_slice(alloc, b"mode absent"),
            Judgement::SizeDiffers { said, found } => size_words(alloc, *said, *found),
            Judgement::CoverShort { total } => {
                Ok(format!(in alloc; "cover short: {total}")?.into_bytes())
            }
            Judgement::BoundTooHigh { total } => {
                Ok(format!(in alloc; "bound too high: {total}")?.into_bytes())
            }
        }
    }
}

/// The words of a size that differs: the one that was said, and how many lines are marked.
fn size_words(alloc: Global, said: u64, found: u64) -> Result<Vec<u8>, AllocError>
    ensures { IfOk result (λ words. words.items ≡ size_words said found) }
{
    Ok(format!(in alloc; "size differs: {said}: {found}")?.into_bytes())
}

/// The words of an open boundary: the line, and the neighbour with its upper bound.
fn boundary_words(
    alloc: Global,
    line: u64,
    neighbour: &[u8],
    hi: u64,
) -> Result<Vec<u8>, AllocError>
    ensures { IfOk result (λ words. words.items ≡ boundary_words line neighbour.now hi) }
{
    let mut words = format!(in alloc; "open boundary: line {line}: ")?.into_bytes();
    words.extend_from_slice(neighbour)?;
    let bound = format!(in alloc; ": {hi}")?;
    words.extend_from_slice(bound.as_bytes())?;
    Ok(words)
}
