//! The other elements of a formula.

/// What the list of one element knows of the others: the upper bounds of their modes' probabilities, in units of
/// 10^-18, each from 1 to 10^18.
#[derive(Clone, Copy, Debug)]
pub struct Others<'a> {
    /// Those of the elements before this one, multiplied up, and 10^18 for none.
    pub before: u64,
    /// Those of the elements after it, one by one.
    pub after: &'a [u64],
}
