//! The limits of a table and of its numbers.

/// The weight of an abundance of 1: weights are in units of 10^-12.
pub const FULL_ABUNDANCE: u64 = 1_000_000_000_000;

/// At most so many elements of a table.
pub const MAX_ELEMENTS: usize = 120;

/// At most so many isotopes of an element.
pub const MAX_ISOTOPES: usize = 16;

/// The greatest mass number.
pub const MAX_MASS_NUMBER: u32 = 400;

/// The greatest valence.
pub const MAX_VALENCE: u32 = 8;

/// The least mass of an isotope, 0.5 Da, in 10^-12 Da.
pub const MIN_ISOTOPE_MASS: u64 = 500_000_000_000;

/// The greatest mass of an isotope, 400 Da, in 10^-12 Da.
pub const MAX_ISOTOPE_MASS: u64 = 400_000_000_000_000;

/// The least mass of the electron, in 10^-12 Da.
pub const MIN_ELECTRON_MASS: u64 = 1;

/// The greatest mass of the electron, 0.001 Da, in 10^-12 Da.
pub const MAX_ELECTRON_MASS: u64 = 1_000_000_000;
