//! Scans of rows of numbers, several lanes at a time.
//!
//! [`first_reached`] finds the first place of a row whose number is small enough, and [`count_between`] counts
//! the numbers of a range. Both work on lanes of `std::simd`, with a plain loop for the rest, and their contracts
//! are the plain meanings. The crate stands on no other and takes no memory.
//!
//! Residue tables are probed by the first, and the masses of a prediction are matched by the second.
#![tactic(auto)]

mod counting;
mod reaching;

pub use counting::count_between;
pub use reaching::first_reached;

#[cfg(test)]
mod tests;
