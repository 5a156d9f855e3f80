//! Peaks that are made from a number, with the formulas that they are made of.
//!
//! A number's draws are those of a linear congruential generator. Four draws make the formula of a peak, by
//! [`made_formulas`], and the ion of the formula gives the peak's m/z, by [`made_peaks`]. The same number makes the same
//! peaks always, so a program can be tried and timed on them.
//!
//! Contracts see [`Draws`] as the state that the draws have come to. The crate stands on `formula_text` and
//! `element_table` for formulas and their masses, on `adducts` for ions, on `peak_text` for peaks, on `written_items`
//! for the items of formulas, and on `reader_answers` for the form of answers.
#![tactic(auto)]

mod draws;
mod formulas;
mod peaks;

pub use draws::{Draws, MAX_NUMBER};
pub use formulas::made_formulas;
pub use peaks::{MADE_INTENSITY, made_peaks};

#[cfg(test)]
mod tests;
