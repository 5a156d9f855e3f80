//! Sets of isotopologues of a list of elements: layers, covers of a wanted coverage, and what it means that a
//! set reaches a coverage and that no smaller set does.
//!
//! An isotopologue has, for each element, counts of its isotopes that sum to the element's atoms. Layers, the
//! order of a cover, its size and its bound are defined here over these counts, once for all layers above; the
//! halving thresholds and the bound are this project's own, the aim, a smallest set of a wanted coverage, is that
//! of M. Lacki, M. Startek, D. Valkenborg and A. Gambin ("IsoSpec: Hyperfast Fine Structure Calculator",
//! Analytical Chemistry 89, 2017).
//!
//! An [`ElementAtoms`] is seen by contracts as its weights and its number of atoms. What holds of layers is stated
//! by [`layer_laws`]; what a cover claims stands on the call of a layer above that gives one. The crate stands on
//! `multinomial_bounds` for the bounds of probabilities and on `sorted_lists` for the order.
#![tactic(auto)]

mod element;
mod laws;

pub use element::ElementAtoms;
pub use laws::layer_laws;

#[cfg(test)]
mod tests;
