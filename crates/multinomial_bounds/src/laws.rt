//! What holds of the isotopologues of a formula, as laws over definitions alone.

ghost use Rattle.std.specs.Prelude.{◌≡◌, ◌+◌, ◌-◌, ◌*◌, ◌≤◌, ◌↔◌, List, [], ℕ, length, sum_by, All, AllPairs, Contains};
ghost use Rattle.std.specs.Ordering.{nat_cmp};
ghost use Rattle.std.specs.Cmp.Lexicographic.{slice_cmp};
ghost use Rattle.multinomial_bounds.specs.Weight.{IsWeights, weight_of, total_of};
ghost use Rattle.multinomial_bounds.specs.Bounds.{certainty, floor_of, ceiling_of, IsEnclosure};
ghost use Rattle.multinomial_bounds.specs.Isotopologue.{Element, IsIsotopologue, isotopologue_weight, all_weight};
ghost use Rattle.multinomial_bounds.specs.Isotopologue.{all_atoms, isotopologue_bound};
ghost use Rattle.multinomial_bounds.specs.Compositions.{compositions, isotopologues_of};

use std::cmp::Ordering;

/// States what holds of the isotopologues of every list of elements, and does nothing. They are listed each
/// once, in lexicographic order of their counts. The bounds of each enclose its probability; with N atoms and q
/// elements the upper one is at most 2 N + q - 1 above the lower one, in units of 10^-18, and without elements both
/// are probability 1. The weights of all of them sum to the number that each is a part of, and so do those of all
/// counts of one element.
pub fn isotopologue_laws()
    ensures isotopologues { (elements : List Element) (isotopologue : List (List ℕ)) →
        Contains (isotopologues_of elements) isotopologue ↔ IsIsotopologue elements isotopologue }
    ensures in_order { (elements : List Element) →
        AllPairs (λ i j. slice_cmp (slice_cmp nat_cmp) i j ≡ Ordering.Less) (isotopologues_of elements) }
    ensures encloses { (elements : List Element) → All (λ e. IsWeights e.weights) elements →
        (isotopologue : List (List ℕ)) → IsIsotopologue elements isotopologue →
        IsEnclosure
        (isotopologue_bound floor_of elements isotopologue)
        (isotopologue_bound ceiling_of elements isotopologue)
        (isotopologue_weight elements isotopologue)
        (all_weight elements) }
    ensures width { (elements : List Element) → All (λ e. IsWeights e.weights) elements →
        (isotopologue : List (List ℕ)) → IsIsotopologue elements isotopologue →
        isotopologue_bound ceiling_of elements isotopologue
        ≤ isotopologue_bound floor_of elements isotopologue + (2 * all_atoms elements + length elements - 1) }
    ensures no_elements { (round : ℕ → ℕ → ℕ) → isotopologue_bound round [] [] ≡ certainty }
    ensures sum_of_counts { (weights : List ℕ) (n : ℕ) →
        sum_by (weight_of weights n) (compositions (length weights) n) ≡ total_of weights n }
    ensures sum { (elements : List Element) →
        sum_by (isotopologue_weight elements) (isotopologues_of elements) ≡ all_weight elements }
{}
