//! The items at given places of the elements' lists.
ghost use Rattle.std.specs.Prelude.{◌≡◌, ◌↔◌, IfOk, IsTrue, length};
ghost use Rattle.layered_envelope.specs.ChosenPlaces.{ArePlaces};
ghost use Rattle.layered_envelope.specs.Walks.{his_of, places_of, IsWalk};
ghost use Rattle.layered_envelope.specs.CountedWalks.{lo_at, hi_at};

use crate::walk::{Choice, before_of, item_at, item_count};
use multinomial_bounds::{Enclosure, times};
use std::alloc::{AllocError, Global};
use sub_isotopologues::SubIsos;

/// Whether there is one place in each list.
pub(crate) fn are_places(lists: &[SubIsos], places: &[usize]) -> bool
    ensures { IsTrue result ↔ ArePlaces (his_of lists.now) places.now }
{
    if lists.len() != places.len() {
        return false;
    }
    for element in 0..lists.len() {
        if places[element] >= item_count(lists, element) {
            return false;
        }
    }
    true
}

/// The enclosure of the product of the items at these places, in order.
pub(crate) fn product_at(lists: &[SubIsos], places: &[usize]) -> Enclosure
    requires { ArePlaces (his_of lists.now) places.now }
    ensures lo { result.lo ≡ lo_at lists.now places.now }
    ensures hi { result.hi ≡ hi_at lists.now places.now }
{
    let mut product = Enclosure::certain();
    for element in 0..lists.len() {
        product = times(product, item_at(lists, element, places[element]));
    }
    product
}

/// The choice of the items at these places.
pub(crate) fn choices_at(
    alloc: Global,
    lists: &[SubIsos],
    places: &[usize],
) -> Result<Vec<Choice>, AllocError>
    requires { ArePlaces (his_of lists.now) places.now }
    ensures walk { IfOk result (λ choices. IsWalk lists.now choices.items) }
    ensures places { IfOk result (λ choices. places_of choices.items ≡ places.now) }
{
    let unchosen = Choice {
        before: Enclosure::certain(),
        place: 0,
    };
    let mut choices = vec![in alloc; unchosen; lists.len()]?;
    choose_at(lists, &mut choices, places);
    Ok(choices)
}

/// Chooses the items at these places.
fn choose_at(lists: &[SubIsos], choices: &mut [Choice], places: &[usize])
    requires as_many { length choices.old ≡ length lists.now }
    requires places { ArePlaces (his_of lists.now) places.now }
    ensures walk { IsWalk lists.now choices.new }
    ensures places { places_of choices.new ≡ places.now }
{
    for element in 0..choices.len() {
        let before = before_of(lists, choices, element);
        choices[element] = Choice {
            before,
            place: places[element],
        };
    }
}
