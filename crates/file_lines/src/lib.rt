//! The lines of a file: LF or CR LF ends a line, and the last line may lack its end.
//!
//! Contracts see the lines of bytes by the definition of std. The crate stands on no other. Readers of files that go by
//! lines cut one line after another off by [`cut_line`].
#![tactic(auto)]

mod cut;

pub use cut::cut_line;

#[cfg(test)]
mod tests;
