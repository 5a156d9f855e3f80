//! How well a prediction fits a peak list: the score of its members.
//!
//! A member of a prediction is an isotopologue of an ion, a [`Predicted`] with its mass and a lower bound of its
//! probability. Each goes to the nearest peak within tolerance of its mass, and the score is the total of those that
//! have no such peak and of how far the totals at the peaks are from the peaks' shares in the intensity. Smaller is
//! better.
//!
//! The masses of the members are one column. Each peak that can have a member is held against the whole column first,
//! by the number of masses in its window, and is passed over where that is 0.
//!
//! A [`PeakOrder`] is seen by contracts as the list of its peaks. The crate stands on `mass_scaling` for tolerances
//! and windows, on `lane_scan` for the numbers of masses in them, and on `peak_text` for peaks. The layer above makes
//! one order of its peaks and asks it for the [`PeakOrder::score`] of each candidate; [`score`] makes an order for one
//! prediction.
#![tactic(auto)]

mod columns;
mod order;
mod predicted;
mod scores;
mod shares;

pub use order::PeakOrder;
pub use predicted::{MAX_LO_TOTAL, Predicted};
pub use scores::score;

#[cfg(test)]
mod tests;
