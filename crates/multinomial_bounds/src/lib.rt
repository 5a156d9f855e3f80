//! Enclosures of the probabilities of isotopologues, in whole numbers.
//!
//! The atoms of an element are drawn one by one, each an isotope with the probability of its weight
//! over the sum of the element's weights, so the counts of the isotopes have a multinomial
//! distribution. This crate gives two whole numbers, in units of 10^-18, that the exact probability
//! of given counts lies between. The likeliest counts, the mode, are found atom by atom (H. Finucan,
//! "The mode of a multinomial distribution", Biometrika 51, 1964).
//!
//! The counts of one element's isotopes are the subisotopologues of IsoSpec (M. Lacki, M. Startek,
//! D. Valkenborg and A. Gambin, "IsoSpec: Hyperfast Fine Structure Calculator", Analytical Chemistry
//! 89, 2017). How their probabilities are enclosed is this project's own: each counts but the mode have
//! one parent, a move of one atom nearer to the mode, and their bounds are the parent's times the exact
//! quotient of both probabilities, the lower one rounded down and the upper one up.
//!
//! The weights of an element are those of its isotopes with a positive abundance, in any one unit:
//! 1 to 16 of them, each from 1 to 10^12. Isotopes of abundance 0 are left out by the caller. An
//! element has at most [`MAX_ATOMS`] atoms.
//!
//! An [`Enclosure`] is seen by contracts as its two bounds, and a [`Spread`] as the list of its counts. The
//! crate stands on no other. The layers above begin with the mode of an element, by [`mode_of`], go on to the
//! enclosures of its other counts, by [`enclose`] or by one [`move_down`], and multiply those of several
//! elements by [`times`]. What holds of all isotopologues of a formula is stated by [`isotopologue_laws`].
#![tactic(auto)]

mod enclosure;
mod laws;
mod mode;
mod moves;
mod path;
mod product;
mod quotient;
mod spread;

pub use enclosure::{CERTAINTY, Enclosure};
pub use laws::isotopologue_laws;
pub use mode::{MAX_ATOMS, is_mode, mode_of};
pub use moves::move_down;
pub use path::enclose;
pub use product::times;
pub use quotient::times_upper;
pub use spread::Spread;

#[cfg(test)]
mod exact;
#[cfg(test)]
mod tests;
