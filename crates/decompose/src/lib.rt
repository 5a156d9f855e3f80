//! Enumerates the count lists of a window of mass: the formulas that an accurate mass allows.
//!
//! [`Tables`] are seen by contracts as the masses of an alphabet's symbols, [`Counts`] as the list of the
//! counts, and a [`Decomps`] as the masses, limits and window that it goes over and the list that it gave
//! last. The crate stands on `mass_scaling` for windows of mass and their scale, on `residue_table` for
//! the sums of scaled masses, on `outside_ports` for the counter of steps, and on `thiserror`.
//!
//! The layer above makes the tables of an alphabet by [`Tables::of`], begins by [`Decomps::start`], and takes
//! one list after another by [`Decomps::next_into`]: each list of the box and the window once, in order.
#![tactic(auto)]

mod count_list;
mod enumerate;
mod faults;
mod levels;
mod limits;
mod mass_tables;
mod probes;
mod strides;
mod walk;

pub use count_list::Counts;
pub use enumerate::Decomps;
pub use faults::ResumeFault;
pub use limits::{Limit, MAX_COUNT};
pub use mass_scaling::{MAX_BASE_MASS, MAX_MASS, MAX_MASSES, MIN_MASS, ScaleFault, Window};
pub use mass_tables::Tables;

#[cfg(test)]
mod tests;
