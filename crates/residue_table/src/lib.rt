//! Which whole numbers are sums of whole multiples of scaled masses.
//!
//! A [`Residues`] table is seen by contracts as the masses that it is made of. It answers whether a number is a sum
//! of whole multiples of the last masses, [`Residues::reaches`], whether one of a range is, [`Residues::reaches_in`], and
//! which is the least such number of it, [`Residues::first_in`]. The crate stands on `lane_scan` for its probes and on
//! `outside_ports` for the counter of steps.
//!
//! The search for count lists walks prefixes of count lists, and asks by [`Residues::reaches_in`] whether a prefix can
//! be completed.
#![tactic(auto)]

mod divisors;
mod residues;
mod round_robin;
mod rows;
mod spans;

pub use residues::{MAX_MASSES, MAX_MODULUS, MAX_SCALED_MASS, Residues};

#[cfg(test)]
mod tests;
