//! The subisotopologues of an element, as far down as the isotopologues of a formula need them.
//!
//! The counts that an element's isotopes may have are the subisotopologues of IsoSpec (M. Lacki, M. Startek,
//! D. Valkenborg and A. Gambin, "IsoSpec: Hyperfast Fine Structure Calculator", Analytical Chemistry 89, 2017). Here
//! they are listed by falling upper bound of their probability, as far as their product with the modes of the other
//! elements is above a threshold. All other counts are in no isotopologue of the formula above it.
//!
//! The list is grown on demand. The upper bound of counts is at most that of their parent, which is one move of an atom
//! nearer to the mode, so those above a bound hang together at the mode: a lower threshold adds children of items, and
//! children of these, and forms neither all counts nor their number.
//!
//! A [`SubIso`] is seen by contracts as its counts and both bounds, and a [`SubIsos`] as a listing: the weights and
//! atoms of the element, the others, the threshold, and how many items were given; its items follow from these. The
//! crate stands on `multinomial_bounds` for the bounds, on `sorted_lists` and `reader_answers` for definitions, on
//! `isotopologue_list` for lemmas and as the plain list of its tests, and on `thiserror`. The layer above makes a list
//! by [`SubIsos::start`], lowers it by [`SubIsos::lower_to`] and reads its [`SubIsos::items`]; for another formula with
//! as many atoms of the element it begins the list again by [`SubIsos::restart`], and what was grown is found without a
//! search. What holds of every list is stated by [`sub_isotopologue_laws`].
#![tactic(auto)]

mod children;
mod cutoff;
mod fault;
mod grown;
mod growth;
mod laws;
mod others;
mod sub_iso;
mod sub_isos;

pub use cutoff::cutoff_of_factor;
pub use fault::SubFault;
pub use grown::MAX_SUB_ISOTOPOLOGUES;
pub use laws::sub_isotopologue_laws;
pub use others::Others;
pub use sub_iso::{MAX_ISOTOPES, SubIso};
pub use sub_isos::SubIsos;

#[cfg(test)]
mod tests;
