//! A candidate with its score.

use formula_text::Formula;
use std::marker::Model;

/// A candidate of a peak with its score, and with the size and the bound of the cover of its ion.
#[derive(Debug, Drop)]
pub struct Ranked {
    pub(crate) formula: Formula,
    pub(crate) score: u64,
    pub(crate) size: u64,
    pub(crate) bound: u64,
}

impl Model for Ranked {
    ghost use Rattle.ranking.specs.Places.{RankedEntry};

    ghost Value = { RankedEntry };

    ghost view = { λ r. record { formula = r.formula; score = r.score; size = r.size; bound = r.bound } };
}

impl Ranked {
    ghost use Rattle.std.specs.Prelude.{◌≡◌};

    /// The candidate.
    pub fn formula(&self) -> &Formula
        ensures { result.now ≡ self.now.formula }
    {
        &self.formula
    }

    /// Its score, in 10^-18; smaller is better.
    pub fn score(&self) -> u64
        ensures { result ≡ self.now.score }
    {
        self.score
    }

    /// How many members the cover of its ion has.
    pub fn size(&self) -> u64
        ensures { result ≡ self.now.size }
    {
        self.size
    }

    /// A number such that no set of fewer isotopologues of its ion has the coverage.
    pub fn bound(&self) -> u64
        ensures { result ≡ self.now.bound }
    {
        self.bound
    }
}
