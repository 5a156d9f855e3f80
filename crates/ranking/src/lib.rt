//! The candidates of a peak ranked by how well their ions' isotopologues fit a peak list.
//!
//! A [`Prediction`] is the cover of an ion by the masses that a spectrum shows; [`predict`] makes it and [`score`]
//! holds it against a peak list. A [`Ranked`] is a candidate with its score and with the size and the bound of the
//! cover of its ion; contracts see it as these four. A [`RankJob`] is a job of `job_turns` that ranks the candidates
//! of a peak in candidate order, as far as its stop: a candidate whose ion has too large a layer, or more candidates
//! than a peak may have. Jobs can share the lists of elements that they keep, as [`SharedLists`]. [`rank`] runs one to
//! its end and gives the whole list by rising score, and [`in_places`] the places of ranked candidates by rising score.
//!
//! The crate stands on `candidates` for the candidates of a peak, on `adducts` for ions, on `reaching_layer`,
//! `isotopologue_text` and `cover_certificate` for covers and the masses of their members, on `prediction_score` for
//! scores, on `job_turns` for jobs, on `sorted_lists` for the order of places, on `peak_text`, `mass_scaling`,
//! `formula_text`, `written_items` and `element_table` for peaks, tolerances and formulas, on `reader_answers`,
//! `outside_ports` and `thiserror`.
#![tactic(auto)]

mod electrons;
mod fault;
mod job;
mod limits;
mod lists;
mod places;
mod prediction;
mod ranked;
mod task;
mod waiting;
mod whole;

pub use fault::RankFault;
pub use job::RankJob;
pub use limits::MAX_CANDIDATES;
pub use lists::SharedLists;
pub use places::in_places;
pub use prediction::{Prediction, predict, score};
pub use prediction_score::Predicted;
pub use ranked::Ranked;
pub use reaching_layer::CoverFault;
pub use whole::rank;

#[cfg(test)]
mod tests;
