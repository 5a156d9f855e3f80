//! The reaching layer of a list of elements: their isotopologues by falling lower bound of the probability, with
//! the size and the bound of the cover that begins it.
//!
//! The isotopologues whose upper bound is above a threshold are a layer; the threshold is halved until the lower
//! bounds of a layer total at least the wanted coverage. The layer's first members by falling lower bound, as few
//! as have the coverage, are the cover, and no set with fewer members than its bound has the coverage. The halving
//! thresholds and the bound are this project's own; the aim, a smallest set of a wanted coverage, is that of
//! M. Lacki, M. Startek, D. Valkenborg and A. Gambin ("IsoSpec: Hyperfast Fine Structure Calculator", Analytical
//! Chemistry 89, 2017).
//!
//! A [`ReachingLayer`] is seen by contracts as the cover's numbers: threshold, size, bound, and of each member the
//! counts and the two bounds of its probability. The crate stands on `layered_envelope` for layers and their members,
//! on `isotopologue_sets` for what a cover is, on `outside_ports` for a counter of steps, on `isotopologue_list` for
//! lemmas and as the plain list of its tests, on `multinomial_bounds`, `sorted_lists`, `reader_answers` and `thiserror`.
//! The layers above ask [`reaching_layer`], or [`reaching_layer_with`] for one list of elements after another, and add
//! texts and masses to what it gives.
#![tactic(auto)]

mod falling;
mod fault;
mod fewest;
mod layer;
mod members;
mod search;

pub use fault::CoverFault;
pub use layer::{ReachingLayer, reaching_layer, reaching_layer_with};
pub use layered_envelope::{GrownLists, MAX_MEMBERS};

#[cfg(test)]
mod tests;
