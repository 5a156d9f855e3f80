//! What holds of the layers and covers of a formula, as laws over definitions alone.

ghost use Rattle.std.specs.Prelude.{◌≡◌, ◌<◌, ◌≤◌, ◌↔◌, ◌≢◌, List, ℕ, true, false, AllPairs, Contains};
ghost use Rattle.std.specs.Ordering.{nat_cmp};
ghost use Rattle.std.specs.Cmp.Lexicographic.{slice_cmp};
ghost use Rattle.sorted_lists.specs.SortedLists.{IsTheOrder};
ghost use Rattle.multinomial_bounds.specs.Isotopologue.{Element, IsIsotopologue};
ghost use Rattle.isotopologue_sets.specs.Layers.{AreElements, hi_of, lo_total, layer, has_too_many};
ghost use Rattle.isotopologue_sets.specs.Layers.{threshold_at, reaching_threshold, ends_search, last_threshold_for};
ghost use Rattle.isotopologue_sets.specs.Coverage.{max_coverage};
ghost use Rattle.isotopologue_sets.specs.Covers.{stands_before, ordered_layer};

use std::cmp::Ordering;

/// States what holds of the layers of every list of elements, and does nothing. A layer has exactly the
/// isotopologues whose upper bound is above its threshold, each once. In the cover's order stand all of them, and no
/// other list of them is in that order.
///
/// For elements within the limits and a coverage up to 0.999999 the search for a cover always ends: some layer has the
/// coverage by its lower bounds, or more than 1,048,576 members. Where the first such layer has no more members than
/// that, it is the reaching layer. Its threshold is the mode's upper bound halved so many times, rounded down, and the
/// layer of each greater one of these falls short of the coverage.
pub fn layer_laws()
    ensures members { (elements : List Element) (threshold : ℕ) (isotopologue : List (List ℕ)) →
        Contains (layer elements threshold) isotopologue
        ↔ (IsIsotopologue elements isotopologue × (threshold < hi_of elements isotopologue)) }
    ensures in_order { (elements : List Element) (threshold : ℕ) →
        AllPairs (λ i j. slice_cmp (slice_cmp nat_cmp) i j ≡ Ordering.Less) (layer elements threshold) }
    ensures cover_order { (elements : List Element) (threshold : ℕ) →
        IsTheOrder (stands_before elements) (layer elements threshold) (ordered_layer elements threshold) }
    ensures within_reach { (elements : List Element) → AreElements elements → has_too_many elements 0 ≡ false →
        (coverage : ℕ) → coverage ≤ max_coverage → coverage ≤ lo_total elements (layer elements 0) }
    ensures ends { (elements : List Element) → AreElements elements →
        (coverage : ℕ) → coverage ≤ max_coverage →
        ends_search elements coverage (last_threshold_for elements coverage) ≡ true }
    ensures halved { (elements : List Element) → AreElements elements →
        (coverage : ℕ) → coverage ≤ max_coverage →
        (step : ℕ) × (last_threshold_for elements coverage ≡ threshold_at elements step) }
    ensures first { (elements : List Element) → AreElements elements →
        (coverage : ℕ) → coverage ≤ max_coverage →
        (step : ℕ) → last_threshold_for elements coverage < threshold_at elements step →
        ends_search elements coverage (threshold_at elements step) ≡ false }
    ensures reaching { (elements : List Element) → AreElements elements →
        (coverage : ℕ) → coverage ≤ max_coverage →
        has_too_many elements (last_threshold_for elements coverage) ≡ false →
        (reaching_threshold elements coverage ≡ last_threshold_for elements coverage)
        × (coverage ≤ lo_total elements (layer elements (reaching_threshold elements coverage))) }
{}
