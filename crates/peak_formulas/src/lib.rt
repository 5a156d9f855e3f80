//! Which formulas a peak has.
//!
//! A count list of an alphabet's box is of a peak where it is that of a formula with an ion whose exact mass is within
//! tolerance, and the formula meets the rules. The candidates of a peak are exactly these, each once, in order.
//!
//! The crate has definitions and what holds of them, stated by [`peak_laws`]. It stands on `candidates` for what the
//! candidates of a peak are, and below it on `decompose`, `mass_scaling`, `adducts`, `golden_rules`, `formula_text`,
//! `written_items` and `element_table`.
#![tactic(auto)]

mod laws;

pub use laws::peak_laws;
