//! Peak lists: the m/z and the intensity of each peak, read from a CSV file.
//!
//! A [`Peaks`] is seen by contracts as its list of pairs of m/z, in 10^-12 Da, and intensity, in 10^-6. Peaks are
//! numbered from 1 in the order of the file, need no order of their own, and two may be equal.
//!
//! The crate stands on `csv_records` for the records of a file, on `fixed_decimal` for their numbers, on
//! `reader_answers` for the form of its answers, and on `thiserror`. The layers above read the bytes of a peak file by
//! [`read_peaks`], which gives the peaks or the first fault and its record, make peaks of pairs by [`Peaks::of`], and
//! take the columns by [`Peaks::mz`] and [`Peaks::intensity`].
#![tactic(auto)]

mod fault;
mod limits;
mod peaks;
mod read;

pub use fault::PeakFault;
pub use limits::{MAX_INTENSITY, MAX_MZ, MAX_PEAKS};
pub use peaks::Peaks;
pub use read::read_peaks;

#[cfg(test)]
mod tests;
