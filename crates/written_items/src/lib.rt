//! Items as they are written: an element's symbol, or a labelled isotope as `[13C]`.
//!
//! Formulas, adducts, alphabets and texts of isotopologues are rows of items, each with a tail of its
//! own behind it, as a count or a range. [`leading_item`] reads the item that a text begins with; a text is
//! the list of its bytes, and a place in it is the number of bytes before it. [`push_item`] and
//! [`push_count`] print an [`Item`] and its count.
//!
//! The crate stands on `element_table` for symbols, on `fixed_decimal` for numbers, on `reader_answers` for
//! the place of bad text, and on `itoa` and `thiserror`. Its definitions say what a written item and a row
//! of them is, for any grammar of tails; its lemmas say that a text is one row at most, and where a text
//! stops being one.
#![tactic(auto)]

mod item;
mod leading;
mod print;

pub use item::{BadItem, Item, LeadingItem};
pub use leading::{leading_item, leading_symbol};
pub use print::{push_count, push_item};

#[cfg(test)]
mod tests;
