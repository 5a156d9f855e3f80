//! Texts that are written on the stack, from the end of a buffer to its front.
//!
//! Each call writes a text so that it ends at `end`, and tells where it begins: there the text ends that stands before it.
//! What stands from `end` on stays as it was, and the bytes before the text may change. So a line of known greatest length is
//! put together without a look for room, and no number of digits has to be known before it.
//!
//! The crate stands on the definition of a printed count of `written_items`, and on `itoa` for digits.
#![tactic(auto)]

mod write;

pub use write::{write_byte, write_count, write_number};

#[cfg(test)]
mod tests;
