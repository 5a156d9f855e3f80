//! The limits of what is ranked.

/// The most candidates of a peak.
pub const MAX_CANDIDATES: u64 = 1_048_576;
