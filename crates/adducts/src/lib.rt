//! Adducts, as `[M+H]+` or `[2M+Na-H2O]2+`, and the ions of formulas that they tell.
//!
//! [`read_adduct`] reads an adduct's text with a table and gives the [`Adduct`] or the first fault of the text with
//! its place. [`ion_of`] makes the ion of a formula, and [`ion_mass`] gives the ion's mass without making it. Contracts
//! see an adduct as its copies, the atoms that it adds and those that it takes off, and its charge.
//!
//! The crate stands on `element_table` and `formula_text` for symbols, counts and masses, on `written_items` for
//! symbols and rows of them, on `mass_scaling` for what a window of masses asks of an adduct, on `fixed_decimal` for
//! numbers, on `reader_answers` for faults and places, and on `thiserror`.
#![tactic(auto)]

mod adduct;
mod fault;
mod ion;
mod read;
mod written;

pub use adduct::Adduct;
pub use fault::AdductFault;
pub use ion::{has_ion, ion_mass, ion_of};
pub use read::read_adduct;

#[cfg(test)]
mod tests;
