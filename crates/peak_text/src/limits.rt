//! The limits of a peak list and of its numbers.

/// The greatest m/z, 20,000 Da, in 10^-12 Da. The least is 10^-12 Da.
pub const MAX_MZ: u64 = 20_000_000_000_000_000;

/// The greatest intensity, 10^12, in 10^-6.
pub const MAX_INTENSITY: u64 = 1_000_000_000_000_000_000;

/// At most so many peaks of a list.
pub const MAX_PEAKS: usize = 10_000;
