//! `decompose`: the formulas of peaks, read and reported.
//!
//! A [`Decomposition`] is what `decompose` asks, read from its options and a shelf: peaks with the premises of their
//! formulas, and the page of them that is asked for. Contracts see it as that query. It is written as lines or in JSON, and
//! what is printed of each peak is the page of exactly its formulas.
//!
//! The crate stands on `command_io` for what commands have in common, on `candidates` for the formulas of a peak and on
//! `peak_formulas` for which these are, on `peak_text` for peaks, on `formula_text` for tokens, and on `report_lines` and
//! `report_text` for lines.
#![tactic(auto)]

mod decomposition;
mod peaks;

pub use decomposition::{DecomposeOptions, Decomposition};
