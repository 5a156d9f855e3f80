//! What holds of the lists of an element, as laws over definitions alone.

ghost use Rattle.std.specs.Prelude.{◌≡◌, ◌<◌, ◌≤◌, ◌↔◌, List, ℕ, AllPairs, Contains};
ghost use Rattle.std.specs.Ordering.{nat_cmp};
ghost use Rattle.std.specs.Cmp.Lexicographic.{slice_cmp};
ghost use Rattle.sorted_lists.specs.SortedLists.{IsTheOrder, sorted_by};
ghost use Rattle.multinomial_bounds.specs.Weight.{IsWeights, IsCounts};
ghost use Rattle.multinomial_bounds.specs.Bounds.{ceiling_of};
ghost use Rattle.multinomial_bounds.specs.Mode.{mode_of_atoms};
ghost use Rattle.multinomial_bounds.specs.Path.{bound_of};
ghost use Rattle.sub_isotopologues.specs.SubIsotopologues.{stands_before, product_with};
ghost use Rattle.sub_isotopologues.specs.Listings.{Listing, counts_above};

use std::cmp::Ordering;

/// States what holds of the lists of every element, and does nothing. A list has exactly the counts of the element
/// whose product with the others is above the threshold, each once. In the order of the items stand all of them, and no
/// other list of them is in that order. The product rises with the upper bound of the counts, which no counts have
/// greater than the mode.
pub fn sub_isotopologue_laws()
    ensures members { (l : Listing) (counts : List ℕ) → Contains (counts_above l) counts
        ↔ (IsCounts l.element.weights l.element.atoms counts
        × (l.threshold < product_with l.before l.after (bound_of ceiling_of l.element.weights counts))) }
    ensures each_once { (l : Listing) → AllPairs (λ a b. slice_cmp nat_cmp a b ≡ Ordering.Less) (counts_above l) }
    ensures order { (l : Listing) → IsTheOrder (stands_before l.element.weights) (counts_above l)
        (sorted_by (stands_before l.element.weights) (counts_above l)) }
    ensures rises { (before : ℕ) (after : List ℕ) (lower higher : ℕ) → lower ≤ higher →
        product_with before after lower ≤ product_with before after higher }
    ensures mode_greatest { (weights counts : List ℕ) (atoms : ℕ) → IsWeights weights → IsCounts weights atoms counts →
        bound_of ceiling_of weights counts ≤ bound_of ceiling_of weights (mode_of_atoms weights atoms) }
{}
