//! The limits that measured values and ions lie in.

/// The greatest m/z: 20,000 Da, in 10^-12 Da.
pub const MAX_MZ: u64 = 20_000_000_000_000_000;

/// The greatest tolerance in ppm: 1,000 ppm, in 10^-3 ppm.
pub const MAX_PPM: u64 = 1_000_000;

/// The greatest tolerance in Da: 10 Da, in 10^-12 Da.
pub const MAX_DA: u64 = 10_000_000_000_000;

/// The greatest divisor, which is the number of charges of an ion.
pub const MAX_DIVISOR: u32 = 30;

/// The greatest number of copies of a formula in an ion.
pub const MAX_COPIES: u32 = 4;

/// The greatest size of the mass of an ion, and of what its adduct adds to it: 9,000,000 Da, in 10^-12 Da.
pub const MAX_ION_MASS: u64 = 9_000_000_000_000_000_000;

/// The most masses of an alphabet.
pub const MAX_MASSES: usize = 20;

/// The least mass of a symbol: 0.5 Da, in 10^-12 Da.
pub const MIN_MASS: u64 = 500_000_000_000;

/// The greatest mass of a symbol: 1,000,000 Da, in 10^-12 Da.
pub const MAX_MASS: u64 = 1_000_000_000_000_000_000;

/// The greatest mass of the last symbol of an alphabet that has a scale: 400 Da, in 10^-12 Da.
pub const MAX_BASE_MASS: u64 = 400_000_000_000_000;

/// The greatest scaled mass of the last symbol of an alphabet.
pub const MAX_SCALED_BASE: u64 = 1_000_000;

/// The greatest scaled mass of a symbol: 1,000,000 Da at a grain of 10^-5 Da.
pub const MAX_SCALED_MASS: u64 = 100_000_000_000;
