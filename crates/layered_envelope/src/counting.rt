//! Counting a layer from what the layer before it has, so that only members that are new are added.
//!
//! The lists are gone through from the first one on, and what is chosen of the first elements is multiplied once and held
//! against what the threshold leaves for it. Of the last list a member of the layer before is passed over by one
//! comparison, and the bounds of a new one alone are formed.
ghost use Rattle.std.specs.Prelude.{◌≡◌, ◌+◌, ◌*◌, ◌<◌, ◌≤◌, ◌∷◌, [], IfOk, OnErr, fold, length};
ghost use Rattle.std.specs.Bool.{OnTrue, OnFalse};
ghost use Rattle.multinomial_bounds.specs.Bounds.{certainty};
ghost use Rattle.layered_envelope.specs.Cutoffs.{AreCutoffs};
ghost use Rattle.layered_envelope.specs.ChosenPlaces.{AllFall, firsts};
ghost use Rattle.layered_envelope.specs.Walks.{lower, upper, his_of};
ghost use Rattle.layered_envelope.specs.CountedWalks.{counted_walk, members_above, with_member, Adds, Fits, IsCounted};

use crate::cutoffs::passes;
use crate::fault::LayerFault;
use crate::layer_end::{LayerEnd, MAX_MEMBERS};
use crate::walk::exceeds;
use multinomial_bounds::{Enclosure, times};
use outside_ports::Steps;
use std::sync::ledger::Ledger;
use sub_isotopologues::SubIsos;

/// The layer of a threshold, from what the layer before it has.
pub(crate) fn count_members<L: Ledger>(
    lists: &[SubIsos],
    cutoffs: &[u64],
    threshold: u64,
    last: LayerEnd,
    steps: &mut Steps<L>,
) -> Result<LayerEnd, LayerFault>
    requires falling { AllFall (his_of lists.now) }
    requires cutoffs { AreCutoffs threshold (firsts (his_of lists.now)) cutoffs.now }
    requires above { threshold < fold upper certainty (firsts (his_of lists.now)) }
    requires last { IsCounted lists.now last }
    requires fits { Fits last }
    requires lower { threshold ≤ last.threshold }
    ensures counted { result ≡ counted_walk threshold lists.now }
    ensures threshold { IfOk result (λ end. end.threshold ≡ threshold) }
    ensures fits { IfOk result (λ end. Fits end) }
    ensures steps { IfOk result (λ end. steps.new ≤ steps.old + 2 * length lists.now * end.members) }
    ensures steps_at_limit { OnErr result (steps.new ≤ steps.old + 2 * length lists.now * (MAX_MEMBERS + 1)) }
{
    let certain = Enclosure::certain();
    let mut end = last;
    if !count_chosen(lists, cutoffs, threshold, certain, certain, &mut end, steps) {
        return Err(LayerFault::TooMany { threshold });
    }
    Ok(LayerEnd { threshold, ..end })
}

/// Adds the new members that begin with what is chosen, whose product is that of `before` and `item`, to what the layer
/// before and the members counted so far have. False exactly where these are more than a layer may have.
#[cycle(counting)]
fn count_chosen<L: Ledger>(
    lists: &[SubIsos],
    cutoffs: &[u64],
    threshold: u64,
    before: Enclosure,
    item: Enclosure,
    end: &mut LayerEnd,
    steps: &mut Steps<L>,
) -> bool
    requires falling { AllFall (his_of lists.now) }
    requires cutoffs { AreCutoffs threshold (firsts (his_of lists.now)) cutoffs.now }
    requires above { threshold < fold upper (upper before.hi item.hi) (firsts (his_of lists.now)) }
    requires fits { Fits end.old }
    requires lower { threshold ≤ end.old.threshold }
    ensures fits { OnTrue result (Fits end.new) }
    ensures adds { OnTrue result
        (Adds threshold (lower before.lo item.lo) (upper before.hi item.hi) lists.now end.old end.new) }
    ensures too_many { OnFalse result
        (MAX_MEMBERS + members_above end.old.threshold (upper before.hi item.hi) lists.now
        < end.old.members + members_above threshold (upper before.hi item.hi) lists.now) }
    ensures steps { OnTrue result (steps.new ≤ steps.old
        + 2 * length lists.now * members_above threshold (upper before.hi item.hi) lists.now) }
    ensures steps_at_limit { OnFalse result (steps.new + 2 * length lists.now * end.old.members ≤ steps.old
        + 2 * length lists.now
        * (members_above end.old.threshold (upper before.hi item.hi) lists.now + MAX_MEMBERS + 1)) }
{
    match lists.split_first() {
        None => count_member(before, item, end),
        Some((list, later)) => {
            count_items(
                list,
                later,
                cutoffs,
                threshold,
                times(before, item),
                end,
                steps,
            )
        }
    }
}

/// Adds the same that begin with what is chosen, of product `before`, and any item of this list.
#[cycle(counting)]
fn count_items<L: Ledger>(
    list: &SubIsos,
    later: &[SubIsos],
    cutoffs: &[u64],
    threshold: u64,
    before: Enclosure,
    end: &mut LayerEnd,
    steps: &mut Steps<L>,
) -> bool
    requires falling { AllFall (his_of (list.now ∷ later.now)) }
    requires cutoffs { AreCutoffs threshold (firsts (his_of (list.now ∷ later.now))) cutoffs.now }
    requires above { threshold < fold upper before.hi (firsts (his_of (list.now ∷ later.now))) }
    requires fits { Fits end.old }
    requires lower { threshold ≤ end.old.threshold }
    ensures fits { OnTrue result (Fits end.new) }
    ensures adds { OnTrue result (Adds threshold before.lo before.hi (list.now ∷ later.now) end.old end.new) }
    ensures too_many { OnFalse result
        (MAX_MEMBERS + members_above end.old.threshold before.hi (list.now ∷ later.now)
        < end.old.members + members_above threshold before.hi (list.now ∷ later.now)) }
    ensures steps { OnTrue result (steps.new ≤ steps.old
        + 2 * length (list.now ∷ later.now) * members_above threshold before.hi (list.now ∷ later.now)) }
    ensures steps_at_limit { OnFalse result (steps.new + 2 * length (list.now ∷ later.now) * end.old.members ≤ steps.old
        + 2 * length (list.now ∷ later.now)
        * (members_above end.old.threshold before.hi (list.now ∷ later.now) + MAX_MEMBERS + 1)) }
{
    if later.is_empty() {
        return count_last(list, threshold, before, end, steps);
    }
    let cutoff = cutoffs[0];
    let later_cutoffs = &cutoffs[1..];
    for choice in list.items() {
        let item = choice.enclosure();
        if !passes(before.hi, item.hi, cutoff, steps) {
            return true;
        }
        if !count_chosen(later, later_cutoffs, threshold, before, item, end, steps) {
            return false;
        }
    }
    true
}

/// Adds the same where this list is the last one.
fn count_last<L: Ledger>(
    list: &SubIsos,
    threshold: u64,
    before: Enclosure,
    end: &mut LayerEnd,
    steps: &mut Steps<L>,
) -> bool
    requires falling { AllFall (his_of (list.now ∷ [])) }
    requires above { threshold < fold upper before.hi (firsts (his_of (list.now ∷ []))) }
    requires fits { Fits end.old }
    requires lower { threshold ≤ end.old.threshold }
    ensures fits { OnTrue result (Fits end.new) }
    ensures adds { OnTrue result (Adds threshold before.lo before.hi (list.now ∷ []) end.old end.new) }
    ensures too_many { OnFalse result
        (MAX_MEMBERS + members_above end.old.threshold before.hi (list.now ∷ [])
        < end.old.members + members_above threshold before.hi (list.now ∷ [])) }
    ensures steps { OnTrue result (steps.new ≤ steps.old + 2 * members_above threshold before.hi (list.now ∷ [])) }
    ensures steps_at_limit { OnFalse result (steps.new + 2 * end.old.members ≤ steps.old
        + 2 * (members_above end.old.threshold before.hi (list.now ∷ []) + MAX_MEMBERS + 1)) }
{
    for choice in list.items() {
        let item = choice.enclosure();
        steps.tick();
        if !exceeds(before.hi, item.hi, threshold) {
            return true;
        }
        if !count_member(before, item, end) {
            return false;
        }
    }
    true
}

/// Adds a choice of all elements, of product `before` and `item`, unless it is a member of the layer before. False
/// exactly where it is new and a layer has no more.
fn count_member(before: Enclosure, item: Enclosure, end: &mut LayerEnd) -> bool
    requires { Fits end.old }
    ensures fits { OnTrue result (Fits end.new) }
    ensures counted { OnTrue result (end.new
        ≡ with_member (lower before.lo item.lo) (upper before.hi item.hi) end.old) }
    ensures is_new { OnFalse result (upper before.hi item.hi ≤ end.old.threshold) }
    ensures full { OnFalse result (end.old.members ≡ MAX_MEMBERS) }
{
    if exceeds(before.hi, item.hi, end.threshold) {
        return true;
    }
    if end.members == MAX_MEMBERS {
        return false;
    }
    let product = times(before, item);
    end.members += 1;
    end.lo_total += u128::from(product.lo);
    end.hi_total += u128::from(product.hi);
    true
}
