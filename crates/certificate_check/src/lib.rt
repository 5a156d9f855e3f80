//! The check of certificates, which trusts nobody.
//!
//! A certificate's text names a formula, four numbers and isotopologues, the cover's marked. The check asks nothing
//! about where it came from, and searches for no cover: it reads the isotopologue of each line and tests the claim of
//! `cover_claims` that they make. What is accepted is true in exact weights: the marked ones have the coverage, are
//! as many as was said, and no set of fewer than the bound has it.
//!
//! A [`Judgement`] is seen by contracts as itself, with the [`Text`] of a neighbour as its bytes. The program reads a
//! certificate by `certificate_text` and asks [`check`] for its judgement. The crate stands on `cover_claims` for the
//! tests, on `isotopologue_text` for the isotopologues of texts and the elements of formulas, on `certificate_text`,
//! `formula_text`, `element_table` and `written_items`, and for its definitions on `isotopologue_sets`,
//! `isotopologue_neighbours` and `multinomial_bounds`. No crate that makes covers has a part in it.
#![tactic(auto)]

mod judgement;
mod judging;
mod laws;
mod lines;

pub use judgement::{Judgement, Text};
pub use judging::check;
pub use laws::judgement_laws;

#[cfg(test)]
mod tests;
