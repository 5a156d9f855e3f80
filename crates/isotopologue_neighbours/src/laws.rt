//! What holds of closed lists of isotopologues, as laws over definitions alone.

ghost use Rattle.std.specs.Prelude.{◌≡◌, ◌⊎◌, ◌-◌, ◌<◌, ◌≤◌, List, ℕ, false, All, Contains, length, take, map};
ghost use Rattle.multinomial_bounds.specs.Isotopologue.{Element, IsIsotopologue};
ghost use Rattle.multinomial_bounds.specs.Weight.{IsWeights};
ghost use Rattle.isotopologue_sets.specs.Layers.{AreElements, lo_total, layer, mode_hi, mode_of_each};
ghost use Rattle.isotopologue_sets.specs.Coverage.{IsSet, Reaches, Bound, max_coverage, weight_of_set};
ghost use Rattle.isotopologue_neighbours.specs.Moves.{neighbours_of};
ghost use Rattle.isotopologue_neighbours.specs.Closed.{IsClosedAbove, IsAtMost, greatest_total};

/// States what holds of lists of isotopologues that are closed above a threshold, and does nothing. What such a list
/// doesn't have is at most the threshold in exact probability. So no set of isotopologues has more than the total of as
/// many of the list's greatest upper bounds above the threshold, with the threshold for each that is missing: where that
/// total is below the coverage, no smaller set reaches it. Isotopologues whose lower bounds total at least the coverage
/// reach it.
pub fn neighbour_laws()
    ensures outside { (elements : List Element) → All (λ e. IsWeights e.weights) elements →
        (threshold : ℕ) (members : List (List (List ℕ))) → IsClosedAbove elements threshold members →
        (isotopologue : List (List ℕ)) → IsIsotopologue elements isotopologue →
        Contains members isotopologue ⊎ IsAtMost elements threshold isotopologue }
    ensures neighbours { (elements : List Element) (isotopologue : List (List ℕ)) →
        IsIsotopologue elements isotopologue → All (IsIsotopologue elements) (neighbours_of isotopologue) }
    ensures bound { (elements : List Element) → AreElements elements →
        (threshold : ℕ) (members : List (List (List ℕ))) → IsClosedAbove elements threshold members →
        All (IsIsotopologue elements) members →
        (coverage bound : ℕ) → greatest_total elements threshold members (bound - 1) < coverage →
        Bound elements bound coverage }
    ensures reaches { (elements : List Element) → AreElements elements →
        (set : List (List (List ℕ))) → IsSet elements set →
        (coverage : ℕ) → coverage ≤ lo_total elements set → Reaches elements set coverage }
{}
