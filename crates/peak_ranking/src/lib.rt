//! Peaks whose candidates are ranked in turns.
//!
//! A [`PeakRanking`] says which peaks of a list are ranked, on which premises and in which turns; contracts see it as
//! that query. [`PeakRanking::play`] gives each peak a job on one board and lets the jobs take their turns in rounds. It
//! gives the [`RankedPeaks`], or the stop that was met first. Contracts see the ranked peaks as how far each job has
//! come.
//!
//! The crate stands on `ranking` for the jobs, on `job_turns` and `turn_rounds` for the board and its turns, on
//! `candidates`, `peak_text` and `prediction_score` for what the jobs are over, and on `formula_text` and
//! `written_items` for formulas.
#![tactic(auto)]

mod query;
mod ranked;
mod tally;

pub use query::PeakRanking;
pub use ranked::RankedPeaks;

#[cfg(test)]
mod tests;
