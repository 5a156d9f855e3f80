//! Claims that isotopologues are a cover, and the test of a claim that trusts nobody.
//!
//! A claim lists isotopologues, some of them marked, with four [`ClaimNumbers`]: that the marked ones have a coverage
//! and are so many, that no set of fewer than a bound has it, and a threshold. The members stand by falling lower
//! bound, so one is found by halves. The list must have the isotopologue of all modes, and each neighbour of a
//! member, one atom moved between two isotopes, whose upper bound is above the threshold: then what it leaves out is
//! at most the threshold in exact probability, however it was made. The rest are three totals.
//!
//! [`ClaimedMembers`] are seen by contracts as their elements and, for each, its counts and whether it is marked, and
//! [`IsotopeCounts`] as the list of them. The layer above lists the isotopologues by [`ClaimedMembers::of`] and asks
//! [`claim_fault`] for the first test that fails, a [`ClaimFault`]. The crate stands on `isotopologue_neighbours` for
//! what a closed list leaves out, on `isotopologue_sets` for what a coverage is, on `multinomial_bounds` for
//! enclosures and on `sorted_lists`; the walk that finds covers and the crates of its layers have no part in it.
#![tactic(auto)]

mod boundary;
mod claim;
mod element;
mod enclosures;
mod fault;
mod laws;
mod members;
mod order;
mod totals;

pub use claim::{ClaimNumbers, claim_fault};
pub use fault::{ClaimFault, IsotopeCounts};
pub use laws::claim_laws;
pub use members::ClaimedMembers;
