//! The words of the program's command line, read as a request.
//!
//! [`request_of`] reads the words behind the program's name: the first names a command, and the others give
//! options their values, as `--name value` or `--name=value`, or are flags, as `--name`. It gives a [`Request`] with
//! each value in its unit, or says by a [`WordsFault`] why the words are no request. [`option_name`] is an option as
//! it is written.
//!
//! The crate stands on `clap`, which says which option stands with which value, on `fixed_decimal` for numbers,
//! on `mass_scaling` for tolerances, on `reader_answers` for the form of its answers, and on `thiserror`.
#![tactic(auto)]

mod commands;
mod fault;
mod matches;
mod options;
mod reading;
mod request;
mod together;
mod values;
mod word;

pub use fault::WordsFault;
pub use options::{
    DEFAULT_TURN, MAX_COVERAGE, MAX_LIMIT, MAX_NUMBER, MAX_PEAK, MAX_TURN, MAX_TURNS, MIN_COVERAGE,
    MIN_LIMIT, MIN_MZ, MIN_PEAK, MIN_TURN, OPTION_COUNT, option_name,
};
pub use reading::request_of;
pub use request::Request;
pub use word::Word;

#[cfg(test)]
mod tests;
