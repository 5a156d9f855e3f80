//! Measured m/z values and the masses that they allow: tolerances and windows; and the masses of an alphabet in
//! whole grains.
//!
//! Masses, m/z and a tolerance in Da are whole numbers of 10^-12 Da, a tolerance in ppm one of 10^-3 ppm. The
//! crate stands on `thiserror` alone.
//!
//! The layer above asks [`within`] whether the mass of an ion fits a measured m/z, and takes from [`window_of`]
//! the window of the masses whose ions do. A search for count lists takes from [`scale_of`] the masses of its
//! alphabet in whole grains, and from [`scaled_window`] which numbers of grains its lists may weigh.
#![tactic(auto)]

mod faults;
mod limits;
mod scales;
mod tolerances;
mod windows;

pub use faults::ScaleFault;
pub use limits::{
    MAX_BASE_MASS, MAX_COPIES, MAX_DA, MAX_DIVISOR, MAX_ION_MASS, MAX_MASS, MAX_MASSES, MAX_MZ,
    MAX_PPM, MAX_SCALED_BASE, MAX_SCALED_MASS, MIN_MASS,
};
pub use scales::{FINE_GRAIN, Scale, scale_of, scaled_window};
pub use tolerances::{Tolerance, within};
pub use windows::{Charged, Window, window_of};

#[cfg(test)]
mod tests;
