//! An item, and what a reader finds at the beginning of a text.

use element_table::Symbol;
use thiserror::Error;

/// What a formula counts: the atoms of an element, or of a labelled isotope.
#[derive(Clone, Copy, Debug, PartialEq, Eq)]
pub struct Item {
    /// The symbol of the element.
    pub symbol: Symbol,
    /// The mass number of a labelled isotope, 0 for the element as it occurs.
    pub label: u32,
}

/// The item that a text begins with.
#[derive(Clone, Copy, Debug, PartialEq, Eq)]
pub struct LeadingItem {
    /// The symbol of the element.
    pub symbol: Symbol,
    /// The number in brackets, `None` where the item has none, and 2^32 - 1 for a greater one. The number
    /// 0 is of no isotope.
    pub number: Option<u32>,
    /// How many bytes of the text the item takes.
    pub byte_count: usize,
}

/// A text begins with no item.
#[derive(Clone, Copy, Debug, PartialEq, Eq, Error)]
#[error("bad text at {at}")]
pub struct BadItem {
    /// The place of the first byte at which no item can go on, or the length of a text that ends too early.
    pub at: usize,
}
