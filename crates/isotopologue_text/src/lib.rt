//! The isotopologues of a formula: the elements whose isotopes they count, and the text and the mass of
//! each; and the isotopologue that has a text.
//!
//! An isotopologue is given by its counts: of each element of the formula's items without a label, in
//! Hill order, the counts of its isotopes of positive abundance, by rising mass number. Those
//! of an element sum to its atoms. [`is_isotopologue`] tells which counts are such.
//!
//! Contracts see the elements as those of `isotopologue_sets`, and an isotopologue as the list of its counts.
//! The crate stands on `element_table`, `written_items`, `formula_text` and `isotopologue_sets`, on the definitions of
//! `multinomial_bounds`, on `fixed_decimal` for the digits of counts and on `itoa`. The layer above lists the
//! isotopologues of [`elements_of`] a formula, and asks for the text and the mass of each by [`isotopologue_text`] and
//! [`isotopologue_mass`], or of many by [`PrintedIsotopes`], or for the masses of many alone by [`IsotopeMasses`]. A
//! reader of such texts asks for the counts by [`isotopologue_of`].
#![tactic(auto)]

mod counted;
mod counts;
mod elements;
mod isotopes;
mod label;
mod mass;
mod masses;
mod printed;
mod read;
mod text;

pub use counts::is_isotopologue;
pub use elements::elements_of;
pub use mass::isotopologue_mass;
pub use masses::IsotopeMasses;
pub use printed::PrintedIsotopes;
pub use read::{isotopologue_into, isotopologue_of};
pub use text::isotopologue_text;

#[cfg(test)]
mod tests;
