//! Covers of formulas: isotopologues that together have a wanted coverage, as they are printed.
//!
//! The cover of a formula is that of its elements, from `reaching_layer`, with the text and the mass of each member.
//! Its contract says what the numbers claim: the first members, as many as its size, reach the coverage in exact
//! weights, and no set of isotopologues with fewer members than its bound does.
//!
//! A [`NumberedCover`] is the same without texts and masses, which it makes member by member where they are printed.
//!
//! A [`Cover`] is seen by contracts as its formula, coverage, threshold, size and bound and the members of its layer,
//! and a [`CoverMember`] as its counts, its text, its mass and its two bounds. The crate stands on `reaching_layer`
//! and `isotopologue_sets` for the cover's numbers, on `isotopologue_text` for what is printed, on
//! `multinomial_bounds`, `formula_text`, `element_table` and `reader_answers`. The program asks
//! [`numbered_cover_of`] for the cover of a formula, which refuses one whose layers have too many members before they
//! have the coverage; [`cover_of`] gives other callers the same with texts and masses.
//!
//! [`write_certificate`] gives the text of a cover's certificate, which `certificate_text` reads again: the same
//! formula, numbers, marks and texts. What reads certificates and the texts of isotopologues is given out from here
//! too.
#![tactic(auto)]

mod certificate;
mod cover;
mod member;
mod numbered;

pub use certificate::{CertificateWrite, write_certificate};
pub use certificate_text::{CertLine, Certificate, CertificateFault, read_certificate};
pub use cover::{Cover, cover_of};
pub use isotopologue_text::{isotopologue_into, isotopologue_of, isotopologue_text};
pub use member::CoverMember;
pub use numbered::{NumberedCover, numbered_cover_of};
pub use reaching_layer::CoverFault;

#[cfg(test)]
mod certificate_tests;
#[cfg(test)]
mod tests;
