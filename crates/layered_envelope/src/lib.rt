//! The layers of a formula's isotopologues: those whose upper bound is above a threshold, which is halved from layer
//! to layer.
//!
//! An element's counts stand in one list, by falling upper bound of their probability, and an isotopologue has a place
//! in the list of each element. A layer is walked in the lexicographic order of these places. What is chosen of the
//! first elements is tested with the likeliest counts, the modes, of the others: where the product isn't above the
//! threshold, nothing that begins so is, nor anything with a later item of the last list. So no product of lists is
//! ever formed, and each test leads to a member or ends the search at an element.
//!
//! The order of an element's counts, the subisotopologues, is that of IsoSpec (M. Lacki, M. Startek, D. Valkenborg and
//! A. Gambin, "IsoSpec: Hyperfast Fine Structure Calculator", Analytical Chemistry 89, 2017); the halving thresholds
//! and the walk are this project's own.
//!
//! [`Layers`] are seen by contracts as their elements and how many layers were given, a [`Member`] as the list of its
//! places, and a walk, [`Members`], as its elements, its threshold and the member that it gave last. The layer above
//! takes one layer after another by [`Layers::next_layer`], or one of a later number by [`Layers::skip_to`], each of which
//! tells its totals, then goes over the members of one by [`Layers::members`] and asks for their counts and enclosures, or
//! takes those of all at once by [`Layers::gathered`]. Over many formulas it keeps the lists in [`GrownLists`], from which
//! [`Layers::start_with`] takes them, with the number of the layer that the last formula had. The crate stands on
//! `sub_isotopologues` for the lists, on `isotopologue_sets` for what a layer is, on `multinomial_bounds`, on
//! `outside_ports` for the counter of steps, on `reader_answers`, `sorted_lists` and `thiserror`.
#![tactic(auto)]

mod counting;
mod cutoffs;
mod fault;
mod gathering;
mod kept;
mod layer_end;
mod layers;
mod lists;
mod member;
mod members;
mod places;
mod walk;

pub use fault::{LayerFault, MemberFault};
pub use gathering::MemberRow;
pub use isotopologue_sets::ElementAtoms;
pub use kept::GrownLists;
pub use layer_end::{LayerEnd, MAX_MEMBERS};
pub use layers::Layers;
pub use member::Member;
pub use members::Members;

#[cfg(test)]
mod tests;
