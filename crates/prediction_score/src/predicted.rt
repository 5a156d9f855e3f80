//! A member of a prediction.

/// The greatest total of the lower bounds of members: 1, in 10^-18.
pub const MAX_LO_TOTAL: u64 = 1_000_000_000_000_000_000;

/// A member of a prediction: an isotopologue of an ion.
#[derive(Clone, Copy, Debug, PartialEq, Eq)]
pub struct Predicted {
    /// The mass with the ion's electrons taken off, in 10^-12 Da: from 1 to 9*10^18.
    pub mass: i128,
    /// The lower bound of the probability, in 10^-18. Those of all members total at most 10^18.
    pub lo: u64,
}
