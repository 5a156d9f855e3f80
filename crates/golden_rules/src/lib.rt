//! Rules that a molecular formula has to meet: SENIOR's conditions on valences, ratios of elements, joint limits of
//! elements, and the degree of unsaturation.
//!
//! A [`Rules`] is seen by contracts as its list of [`Rule`]s, each of one of four kinds. The conditions are used after
//! Kind and Fiehn, "Seven Golden Rules for heuristic filtering of molecular formulas obtained by accurate mass
//! spectrometry" (2007); the numbers of the profile [`golden`] are this project's own.
//!
//! The crate stands on `formula_text` and `written_items` for formulas and their items, on `element_table` for elements
//! and their valences, on `file_lines` for the lines of a rules file, on `fixed_decimal` for its numbers, on
//! `reader_answers` for the form of its answers, and on `thiserror`. The layers above take the rules of a file by [`read_rules`], the profile by [`golden`]
//! or none by [`Rules::none`], and test a formula by [`Rules::holds`].
#![tactic(auto)]

mod fault;
mod kinds;
mod lines;
mod profile;
mod read;
mod rule;
mod rules;
mod written;

pub use fault::RulesFault;
pub use profile::golden;
pub use read::read_rules;
pub use rule::{MAX_RULES, MAX_TRIPLES, Rule, Triple, Triples};
pub use rules::{Rules, Verdict};

#[cfg(test)]
mod tests;
