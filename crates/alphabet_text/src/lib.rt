//! Alphabets: the items that a formula may be made of, each with its mass and its limits.
//!
//! [`read_alphabet`] reads an alphabet's text with a table, as `C1-50H0-100NO0-20` or `A[10A]`, and gives the
//! [`Alphabet`] or the first fault of the text with its place. Contracts see an alphabet as the list of its
//! [`AlphabetEntry`]s, by falling mass, ties by the bytes of their printed items.
//!
//! The crate stands on `element_table` and `formula_text` for masses, on `written_items` for items and rows of
//! them, on `decompose` for limits on counts, on `fixed_decimal` for numbers, on `sorted_lists` for the order, on
//! `reader_answers` for faults and places, and on `thiserror`. An enumeration of formulas takes the items, masses
//! and limits from here.
#![tactic(auto)]

mod alphabet;
mod entries;
mod fault;
mod order;
mod read;
mod written;

pub use alphabet::Alphabet;
pub use entries::{AlphabetEntry, MAX_ENTRIES};
pub use fault::AlphabetFault;
pub use read::read_alphabet;

#[cfg(test)]
mod tests;
