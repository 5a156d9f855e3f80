//! What the threshold of a layer leaves for the first elements of a product.
//!
//! A product of the first elements that is to be above the threshold together with the modes of the later ones has to be
//! above a number of its own. So these are found once for a layer, and each test of a partial choice is one comparison.
ghost use Rattle.std.specs.Prelude.{◌≡◌, ◌+◌, ◌<◌, ◌≤◌, ◌↔◌, ℕ, List, All, IsTrue, fold, length};
ghost use Rattle.multinomial_bounds.specs.Bounds.{certainty};
ghost use Rattle.layered_envelope.specs.Walks.{upper};
ghost use Rattle.layered_envelope.specs.Cutoffs.{IsCutoff, AreCutoffs};

use crate::walk::exceeds;
use outside_ports::Steps;
use std::sync::ledger::Ledger;
use sub_isotopologues::cutoff_of_factor;

/// Writes for each element the greatest product of those up to it that isn't above the threshold together with the modes
/// of the later ones.
pub(crate) fn find_cutoffs(modes: &[u64], threshold: u64, cutoffs: &mut [u64])
    requires as_many { length cutoffs.old ≡ length modes.now }
    requires some { All (λ hi. 1 ≤ hi) modes.now }
    requires most { All (λ hi. hi ≤ certainty) modes.now }
    requires at_most_one { threshold ≤ certainty }
    ensures cutoffs { AreCutoffs threshold modes.now cutoffs.new }
    ensures at_most_one { All (λ cutoff. cutoff ≤ certainty) cutoffs.new }
{
    let mut cutoff = threshold;
    for place in (0..modes.len()).rev() {
        cutoffs[place] = cutoff;
        cutoff = cutoff_of_factor(cutoff, modes[place]);
    }
}

/// Whether what is chosen first, of upper bound `before`, with an item of the next element and the modes of the later
/// ones, which the cutoff stands for, is above the threshold.
pub(crate) fn is_over(before: u64, item: u64, cutoff: u64) -> bool
    requires before { before ≤ certainty }
    requires item { item ≤ certainty }
    ensures { (threshold : ℕ) (later : List ℕ) → IsCutoff threshold later cutoff →
        (IsTrue result ↔ (threshold < fold upper (upper before item) later)) }
{
    exceeds(before, item, cutoff)
}

/// The same as a test of a partial choice, which is a step.
pub(crate) fn passes<L: Ledger>(before: u64, item: u64, cutoff: u64, steps: &mut Steps<L>) -> bool
    requires before { before ≤ certainty }
    requires item { item ≤ certainty }
    ensures above { (threshold : ℕ) (later : List ℕ) → IsCutoff threshold later cutoff →
        (IsTrue result ↔ (threshold < fold upper (upper before item) later)) }
    ensures step { steps.new ≡ steps.old + 1 }
{
    steps.tick();
    is_over(before, item, cutoff)
}
