//! All isotopologues of a formula with the enclosures of their probabilities.
//!
//! An isotopologue has, for each element, counts of its isotopes that sum to the element's atoms. They
//! are counted before anything is listed, and listed in lexicographic order of their counts: by elements
//! in the order given, then by isotopes. The enclosures are those of `multinomial_bounds`.
//!
//! An [`IsotopologueList`] is seen by contracts as the list of its isotopologues, each with its counts and its
//! two bounds. The crate stands on `multinomial_bounds` for the bounds and on `isotopologue_sets` for the
//! elements. No code above calls it: the proofs of `sub_isotopologues` and `reaching_layer` take its lemmas, and their
//! tests hold their lists and layers against [`IsotopologueList::of`], the plain way to them. [`count_up_to`] tells
//! beforehand whether there are too many to be listed.
#![tactic(auto)]

mod composition;
mod count;
mod element_list;
mod enclosures;
mod list;

pub use composition::row_at;
pub use count::count_up_to;
pub use list::IsotopologueList;

#[cfg(test)]
mod tests;
