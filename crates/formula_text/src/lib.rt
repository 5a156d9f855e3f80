//! Molecular formulas, their text and their mass.
//!
//! A [`Formula`] is seen by contracts as its list of items with their counts, in Hill order, and so
//! is a [`Parts`], which may be empty. An [`Item`] is an element or a labelled isotope.
//!
//! The crate stands on `written_items` for items and the grammar of rows of them, on `element_table` for
//! elements and isotopes, on `fixed_decimal` for numbers, on `reader_answers` and on `thiserror`. The layers
//! above read texts by [`read_formula`], which gives the formula or the first fault and its place, add
//! parts up by [`Formula::of`], and ask a formula for its mass and its one printed text.
#![tactic(auto)]

mod fault;
mod formula;
mod hill;
mod limits;
mod mass;
mod parts;
mod print;
mod read;
mod sum;

pub use fault::{FormulaFault, PartsFault};
pub use formula::Formula;
pub use limits::{MAX_ATOMS, MAX_ATOMS_OF_ITEM, MAX_ITEMS};
pub use parts::Parts;
pub use read::read_formula;
pub use written_items::Item;

#[cfg(test)]
mod read_tests;
#[cfg(test)]
mod tests;
