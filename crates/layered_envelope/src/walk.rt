//! A walk over the choices of one item in each element's list.
ghost use Rattle.std.specs.Prelude.{◌≡◌, ◌+◌, ◌-◌, ◌*◌, ◌^◌, ◌∷◌, ◌++◌, ◌<◌, ◌≤◌, ◌↔◌, [], All, IsTrue, MatchBool};
ghost use Rattle.std.specs.Prelude.{MatchOption, drop, fold, length, map, replicate, slice_index, slice_index_or, take};
ghost use Rattle.multinomial_bounds.specs.Bounds.{certainty};
ghost use Rattle.sub_isotopologues.specs.SubIsotopologues.{SubIsotopologue};
ghost use Rattle.sub_isotopologues.specs.Listings.{Listing, items_of};
ghost use Rattle.layered_envelope.specs.ChosenPlaces.{AllFall, firsts};
ghost use Rattle.layered_envelope.specs.Walks.{lower, upper, los_of, his_of, reached, places_of, IsWalkTo, IsWalk, left_after};

use multinomial_bounds::{CERTAINTY, Enclosure, times};
use outside_ports::Steps;
use std::sync::ledger::Ledger;
use sub_isotopologues::SubIsos;

/// The item chosen of one element's list, and the enclosure of the product of those chosen before it.
#[derive(Clone, Copy)]
pub(crate) struct Choice {
    pub(crate) before: Enclosure,
    pub(crate) place: usize,
}

/// The enclosure of the item at a place of an element's list.
pub(crate) fn item_at(lists: &[SubIsos], element: usize, place: usize) -> Enclosure
    requires element { element < length lists.now }
    requires within { place < length (slice_index_or (his_of lists.now) element []) }
    ensures lo { result.lo ≡ slice_index (slice_index_or (los_of lists.now) element []) place }
    ensures hi { result.hi ≡ slice_index (slice_index_or (his_of lists.now) element []) place }
{
    lists[element].items()[place].enclosure()
}

/// The counts of the item at a place of an element's list.
pub(crate) fn counts_of(lists: &[SubIsos], element: usize, place: usize) -> &[u32]
    requires element { element < length lists.now }
    requires within { place < length (slice_index_or (his_of lists.now) element []) }
    ensures { (l : Listing) (i : SubIsotopologue) →
        result.now ≡ (slice_index_or (items_of (slice_index_or lists.now element l)) place i).counts }
{
    lists[element].items()[place].counts()
}

/// How many items an element's list has.
pub(crate) fn item_count(lists: &[SubIsos], element: usize) -> usize
    requires { element < length lists.now }
    ensures { result ≡ length (slice_index_or (his_of lists.now) element []) }
{
    lists[element].items().len()
}

/// The enclosure of the item after a place of an element's list, where there is one.
fn item_after(lists: &[SubIsos], element: usize, place: usize) -> Option<Enclosure>
    requires element { element < length lists.now }
    requires within { place < length (slice_index_or (his_of lists.now) element []) }
    ensures { MatchOption result
        (length (slice_index_or (his_of lists.now) element []) ≤ place + 1)
        (λ e. (place + 1 < 2 ^ 64)
        × (place + 1 < length (slice_index_or (his_of lists.now) element []))
        × (e.hi ≡ slice_index (slice_index_or (his_of lists.now) element []) (place + 1))) }
{
    let items = lists[element].items();
    if place + 1 < items.len() {
        Some(items[place + 1].enclosure())
    } else {
        None
    }
}

/// The upper bound of the product of two probabilities.
pub(crate) fn times_upper(x: u64, y: u64) -> u64
    requires x { x ≤ certainty }
    requires y { y ≤ certainty }
    ensures value { result ≡ upper x y }
    ensures at_most_one { result ≤ certainty }
{
    multinomial_bounds::times_upper(x, y)
}

/// Whether the upper bound of the product of two probabilities is above a threshold, without a division.
pub(crate) fn exceeds(x: u64, y: u64, threshold: u64) -> bool
    requires x { x ≤ certainty }
    requires y { y ≤ certainty }
    ensures { IsTrue result ↔ (threshold < upper x y) }
{
    u128::from(x) * u128::from(y) > u128::from(threshold) * u128::from(CERTAINTY)
}

/// Tests a partial choice: whether what is chosen first, of upper bound `before`, with an item of the next element
/// and the modes of the later ones is above the threshold.
pub(crate) fn is_above<L: Ledger>(
    before: u64,
    item: u64,
    later: &[u64],
    threshold: u64,
    steps: &mut Steps<L>,
) -> bool
    requires before { before ≤ certainty }
    requires item { item ≤ certainty }
    requires later { All (λ hi. hi ≤ certainty) later.now }
    ensures above { IsTrue result ↔ (threshold < fold upper (upper before item) later.now) }
    ensures step { steps.new ≡ steps.old + 1 }
{
    steps.tick();
    let mut product = before;
    let mut factor = item;
    for mode in later {
        product = times_upper(product, factor);
        factor = *mode;
    }
    exceeds(product, factor, threshold)
}

/// The enclosure of the product of the items that are chosen before an element, in order.
pub(crate) fn before_of(lists: &[SubIsos], choices: &[Choice], element: usize) -> Enclosure
    requires as_many { length choices.now ≡ length lists.now }
    requires few { element ≤ length lists.now }
    requires walk { IsWalkTo element lists.now choices.now }
    ensures lo { result.lo ≡ reached lower (los_of lists.now) (places_of choices.now) element }
    ensures hi { result.hi ≡ reached upper (his_of lists.now) (places_of choices.now) element }
{
    if element == 0 {
        return Enclosure::certain();
    }
    let last = choices[element - 1];
    times(last.before, item_at(lists, element - 1, last.place))
}

/// Chooses the first item of each list from an element on.
pub(crate) fn choose_firsts(lists: &[SubIsos], choices: &mut [Choice], element: usize)
    requires as_many { length choices.old ≡ length lists.now }
    requires few { element ≤ length lists.now }
    requires walk { IsWalkTo element lists.now choices.old }
    requires falling { AllFall (his_of lists.now) }
    ensures walk { IsWalk lists.now choices.new }
    ensures places { places_of choices.new
        ≡ take element (places_of choices.old) ++ replicate (length lists.now - element) 0 }
{
    for later in element..choices.len() {
        let before = before_of(lists, choices, later);
        choices[later] = Choice { before, place: 0 };
    }
}

/// Whether the next item of an element's list, with what is chosen before it and the modes of the later elements, is
/// above the threshold.
fn has_next<L: Ledger>(
    lists: &[SubIsos],
    modes: &[u64],
    threshold: u64,
    element: usize,
    choice: Choice,
    steps: &mut Steps<L>,
) -> bool
    requires element { element < length lists.now }
    requires within { choice.place < length (slice_index_or (his_of lists.now) element []) }
    requires modes { length modes.now ≡ length lists.now }
    requires at_most_one { All (λ hi. hi ≤ certainty) modes.now }
    ensures above { IsTrue result
        ↔ ((choice.place + 1 < length (slice_index_or (his_of lists.now) element []))
        × (threshold < fold upper
        (upper choice.before.hi (slice_index (slice_index_or (his_of lists.now) element []) (choice.place + 1)))
        (drop (element + 1) modes.now))) }
    ensures fits { IsTrue result → choice.place + 1 < 2 ^ 64 }
    ensures steps { steps.new ≤ steps.old + 1 }
{
    match item_after(lists, element, choice.place) {
        Some(item) => {
            is_above(
                choice.before.hi,
                item.hi,
                &modes[element + 1..],
                threshold,
                steps,
            )
        }
        None => false,
    }
}

/// Steps on to the next choice above the threshold, in lexicographic order of the places; false exactly where there is
/// none, and the choice is then as it was. The last element whose next item can be part of one takes it, and those
/// after it begin again.
pub(crate) fn advance<L: Ledger>(
    lists: &[SubIsos],
    modes: &[u64],
    threshold: u64,
    choices: &mut [Choice],
    steps: &mut Steps<L>,
) -> bool
    requires walk { IsWalk lists.now choices.old }
    requires falling { AllFall (his_of lists.now) }
    requires modes { modes.now ≡ firsts (his_of lists.now) }
    requires at_most_one { All (λ hi. hi ≤ certainty) modes.now }
    ensures walk { IsWalk lists.now choices.new }
    ensures next { MatchBool result
        (left_after threshold lists.now (places_of choices.old)
        ≡ places_of choices.new ∷ left_after threshold lists.now (places_of choices.new))
        ((left_after threshold lists.now (places_of choices.old) ≡ []) × (choices.new ≡ choices.old)) }
    ensures steps { steps.new ≤ steps.old + length lists.now }
{
    for element in (0..choices.len()).rev() {
        let choice = choices[element];
        if has_next(lists, modes, threshold, element, choice, steps) {
            let before = choice.before;
            let place = choice.place + 1;
            choices[element] = Choice { before, place };
            choose_firsts(lists, choices, element + 1);
            return true;
        }
    }
    false
}
