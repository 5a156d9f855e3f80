//! `rank` and `generate`: the candidates of peaks by rising score, read and reported.
//!
//! [`read_ranking`] reads which peaks `rank` ranks and on which premises, and a [`Generation`] is the ranking of the peaks
//! that `generate` makes from its number. [`ranked_peaks`] lets the jobs of either take their turns, and the reports are
//! written of what they came to: that of `rank` as lines or in JSON.
//!
//! The crate stands on `command_io` for what commands have in common, on `peak_ranking` for the jobs and their turns, on
//! `peak_generator` for made peaks, on `peak_formulas` for which formulas a peak has, on `peak_text` for peaks, on
//! `prediction_score` for their order, on `alphabet_text`, `adducts`, `golden_rules` and `candidates` for the premises of
//! made peaks, and on `report_lines` and `report_text` for lines.
#![tactic(auto)]

mod generation;
mod rank;

pub use generation::{GenerateOptions, Generation};
pub use rank::{RankOptions, ranked_peaks, read_ranking, write_ranking, write_ranking_json};
