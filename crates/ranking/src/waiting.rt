//! The candidates that wait to be ranked.
ghost use Rattle.std.specs.Prelude.{◌≡◌, ◌∷◌, ◌<◌, IfOk, OnErr, IfSome, None};
ghost use Rattle.candidates.specs.Enumeration.{formulas_left};
ghost use Rattle.ranking.specs.Ratings.{TakesFirst, waiting_of};

use candidates::Candidates;
use formula_text::Formula;
use outside_ports::Steps;
use std::alloc::AllocError;
use std::marker::Brand;
use std::sync::ledger::{Blank, Ledger};

/// The candidates of a peak that aren't ranked yet. One that was taken and couldn't be ranked is kept as the first.
#[derive(Drop)]
pub(crate) struct Waiting<'t> {
    pub(crate) candidates: Candidates<'t>,
    pub(crate) first: Option<Formula>,
}

impl<'t> Waiting<'t> {
    /// Takes the first candidate that waits. Without memory for it nothing changes.
    pub(crate) fn take(&mut self) -> Result<Option<Formula>, AllocError>
        ensures taken { IfOk result (λ first. TakesFirst (waiting_of self.old) first (waiting_of self.new)) }
        ensures none_kept { IfOk result (λ first. self.new.first ≡ None) }
        ensures refused { OnErr result (waiting_of self.new ≡ waiting_of self.old) }
    {
        match self.first.take() {
            Some(formula) => Ok(Some(formula)),
            None => next_of::<Brand>(&mut self.candidates, Blank::new(1)),
        }
    }

    /// Puts back the candidate that was taken.
    pub(crate) fn put_back(&mut self, formula: Formula)
        requires { self.old.first ≡ None }
        ensures { waiting_of self.new ≡ formula ∷ waiting_of self.old }
    {
        self.first = Some(formula);
    }
}

/// The next candidate.
fn next_of<L: Ledger>(
    candidates: &mut Candidates<'_>,
    blank: Blank,
) -> Result<Option<Formula>, AllocError>
    requires name { blank.name ≡ L.name }
    requires parts { blank.parts ≡ L.parts }
    requires some { 0 < blank.parts }
    ensures taken { IfOk result (λ next. TakesFirst (formulas_left candidates.old) next (formulas_left candidates.new)) }
    ensures refused { OnErr result (formulas_left candidates.new ≡ formulas_left candidates.old) }
{
    let mut steps = Steps::<L>::new(blank);
    candidates.next(&mut steps)
}
