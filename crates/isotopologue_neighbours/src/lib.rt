//! Moves of one atom between isotopologues, and what a list of isotopologues leaves to those that it doesn't have.
//!
//! Towards the mode no move of one atom between two isotopes of an element lowers the exact probability. So a list that
//! has the isotopologue of all modes, and each neighbour of its members whose upper bound is above a threshold, has
//! every isotopologue whose exact probability is above it. Whoever made the list, this is seen by its members and their
//! neighbours alone; layers and the paths of enclosures have no part in it.
//!
//! The crate has definitions and what holds of them, stated by [`neighbour_laws`]. It stands on `multinomial_bounds` and
//! on `isotopologue_sets` for what a coverage is.
#![tactic(auto)]

mod laws;

pub use laws::neighbour_laws;
