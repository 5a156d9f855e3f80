//! How many atoms of a symbol a formula may have.

/// The most atoms of one symbol.
pub const MAX_COUNT: u32 = 10_000;

/// How many atoms of a symbol a formula may have: from `low` to `high`, at most [`MAX_COUNT`].
#[derive(Clone, Copy, Debug, PartialEq, Eq)]
pub struct Limit {
    pub low: u32,
    pub high: u32,
}
