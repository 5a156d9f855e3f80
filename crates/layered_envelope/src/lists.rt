//! The lists of the elements' items, lowered together to the threshold of a layer.
ghost use Rattle.std.specs.Prelude.{◌≡◌, ◌+◌, ◌*◌, ◌<◌, ◌≤◌, [], ℕ, All, Err, IfOk, OnErr, OnOk, IfErr, fold, length, replicate, slice_index_or, take, List};
ghost use Rattle.reader_answers.specs.Answers.{Gives};
ghost use Rattle.multinomial_bounds.specs.Bounds.{certainty};
ghost use Rattle.multinomial_bounds.specs.Weight.{IsWeights};
ghost use Rattle.isotopologue_sets.specs.Layers.{AreElements};
ghost use Rattle.sub_isotopologues.specs.Listings.{Listing, items_of, lowered};
ghost use Rattle.layered_envelope.specs.ChosenPlaces.{AllFall};
ghost use Rattle.layered_envelope.specs.Walks.{upper, his_of, places_of, IsWalk};
ghost use Rattle.layered_envelope.specs.CountedWalks.{Fits, IsCounted};
ghost use Rattle.layered_envelope.specs.Cutoffs.{IsCutoff, AreCutoffs};
ghost use Rattle.layered_envelope.specs.LayerLists.{elements_of, modes_of, kinds_of, AreLists, AreStarted, IsTooLong, IsAnyTooLong};
ghost use Rattle.layered_envelope.specs.declared.fault.LayerFault.TheVariants.{Memory};
ghost use Rattle.layered_envelope.specs.Layerings.{is_memory, end_within_limit};

use crate::counting::count_members;
use crate::cutoffs::find_cutoffs;
use crate::fault::LayerFault;
use crate::kept::GrownLists;
use crate::layer_end::{LayerEnd, MAX_MEMBERS};
use crate::walk::{Choice, choose_firsts, times_upper};
use isotopologue_sets::ElementAtoms;
use multinomial_bounds::{CERTAINTY, Enclosure};
use outside_ports::Steps;
use std::alloc::{AllocError, Global};
use std::sync::ledger::Ledger;
use sub_isotopologues::{Others, SubFault, SubIsos};

/// The list of each element, taken from those that are kept where there is one. What each knows of the others is of no
/// meaning yet.
pub(crate) fn take_lists(
    alloc: Global,
    elements: &[ElementAtoms],
    kept: &mut GrownLists,
) -> Result<Vec<SubIsos>, AllocError>
    ensures { IfOk result (λ lists. elements_of lists.items ≡ elements.now) }
{
    let mut lists = Vec::with_capacity(alloc, elements.len())?;
    for element in elements {
        lists.push(take_list(alloc, element, kept)?)?;
    }
    Ok(lists)
}

/// The list of one element.
fn take_list(
    alloc: Global,
    element: &ElementAtoms,
    kept: &mut GrownLists,
) -> Result<SubIsos, AllocError>
    ensures { IfOk result (λ l. l.element ≡ element.now) }
{
    if let Some(list) = kept.take(element.weights(), element.atoms()) {
        return Ok(list);
    }
    let none = Others {
        before: CERTAINTY,
        after: &[],
    };
    SubIsos::start(alloc, element.weights(), element.atoms(), none)
}

/// The upper bounds of the elements' modes.
pub(crate) fn modes_of(alloc: Global, lists: &[SubIsos]) -> Result<Vec<u64>, AllocError>
    ensures { IfOk result (λ modes. modes.items ≡ modes_of (elements_of lists.now)) }
{
    let mut modes = Vec::with_capacity(alloc, lists.len())?;
    for list in lists {
        modes.push(list.mode().hi)?;
    }
    Ok(modes)
}

/// Begins each list again beside the others, which it knows by their modes. Gives the product of all modes.
pub(crate) fn restart_lists(lists: &mut [SubIsos], modes: &[u64]) -> Result<u64, AllocError>
    requires elements { AreElements (elements_of lists.old) }
    requires modes { modes.now ≡ modes_of (elements_of lists.old) }
    ensures elements { OnOk result (elements_of lists.new ≡ elements_of lists.old) }
    ensures lists { OnOk result (AreLists lists.new modes.now) }
    ensures thresholds { OnOk result (All (λ l. l.threshold ≡ certainty) lists.new) }
    ensures mode { IfOk result (λ mode_hi. mode_hi ≡ fold upper certainty modes.now) }
{
    let mut before = CERTAINTY;
    for place in 0..lists.len() {
        let others = Others {
            before,
            after: &modes[place + 1..],
        };
        lists[place].restart(others)?;
        before = times_upper(before, modes[place]);
    }
    Ok(before)
}

/// Lowers a list, for which the threshold leaves a cutoff; the fault is that of a layer.
fn lower_list(list: &mut SubIsos, threshold: u64, cutoff: u64) -> Result<(), LayerFault>
    requires lower { threshold ≤ list.old.threshold }
    requires at_most_one { cutoff ≤ certainty }
    requires cutoff { IsCutoff threshold list.old.after cutoff }
    ensures ok { OnOk result (list.new ≡ lowered list.old threshold) }
    ensures err { OnErr result (list.new ≡ list.old) }
    ensures too_many { IfErr result (IsTooLong (lowered list.old threshold)) }
{
    match list.lower_beside(threshold, cutoff) {
        Ok(()) => Ok(()),
        Err(SubFault::TooMany) => Err(LayerFault::TooMany { threshold }),
        Err(_) => Err(LayerFault::Memory),
    }
}

/// Lowers the lists to a threshold, one after another, up to the first that can't be: what was lowered stays so, which
/// changes no layer of a greater threshold.
fn lower_lists(lists: &mut [SubIsos], cutoffs: &[u64], threshold: u64) -> Result<(), LayerFault>
    requires lower { All (λ l. threshold ≤ l.threshold) lists.old }
    requires lists { AreLists lists.old (modes_of (elements_of lists.old)) }
    requires cutoffs { AreCutoffs threshold (modes_of (elements_of lists.old)) cutoffs.now }
    requires at_most_one { All (λ cutoff. cutoff ≤ certainty) cutoffs.now }
    ensures kinds { kinds_of lists.new ≡ kinds_of lists.old }
    ensures at_least { All (λ l. threshold ≤ l.threshold) lists.new }
    ensures at_most { (k : ℕ) (d : Listing) → k < length lists.old →
        (slice_index_or lists.new k d).threshold ≤ (slice_index_or lists.old k d).threshold }
    ensures ok { OnOk result (All (λ l. l.threshold ≤ threshold) lists.new) }
    ensures too_long { IfErr result (IsAnyTooLong threshold lists.old) }
{
    for place in 0..lists.len() {
        lower_list(&mut lists[place], threshold, cutoffs[place])?;
    }
    Ok(())
}

/// The choice of the first item of each list.
pub(crate) fn first_choices(alloc: Global, lists: &[SubIsos]) -> Result<Vec<Choice>, AllocError>
    requires { AllFall (his_of lists.now) }
    ensures walk { IfOk result (λ choices. IsWalk lists.now choices.items) }
    ensures places { IfOk result (λ choices. places_of choices.items ≡ replicate (length lists.now) 0) }
{
    let unchosen = Choice {
        before: Enclosure::certain(),
        place: 0,
    };
    let mut choices = vec![in alloc; unchosen; lists.len()]?;
    choose_firsts(lists, &mut choices, 0);
    Ok(choices)
}

/// The layer of a threshold, from what the layer before it has: lowers the lists to it and counts its new members.
pub(crate) fn next_end<L: Ledger>(
    lists: &mut [SubIsos],
    modes: &[u64],
    cutoffs: &mut [u64],
    threshold: u64,
    last: LayerEnd,
    steps: &mut Steps<L>,
) -> Result<LayerEnd, LayerFault>
    requires lists { AreLists lists.old modes.now }
    requires cutoffs { length cutoffs.old ≡ length modes.now }
    requires lower { All (λ l. threshold ≤ l.threshold) lists.old }
    requires below { threshold < fold upper certainty modes.now }
    requires last { (new : List Listing) → kinds_of new ≡ kinds_of lists.old →
        All (λ l. l.threshold ≤ threshold) new → IsCounted new last }
    requires last_fits { Fits last }
    requires last_above { threshold ≤ last.threshold }
    ensures kinds { kinds_of lists.new ≡ kinds_of lists.old }
    ensures at_least { All (λ l. threshold ≤ l.threshold) lists.new }
    ensures at_most { (k : ℕ) (d : Listing) → k < length lists.old →
        (slice_index_or lists.new k d).threshold ≤ (slice_index_or lists.old k d).threshold }
    ensures ok { OnOk result (All (λ l. l.threshold ≤ threshold) lists.new) }
    ensures gives { Gives is_memory result (end_within_limit (elements_of lists.old) threshold) }
    ensures threshold { IfOk result (λ end. end.threshold ≡ threshold) }
    ensures fits { IfOk result (λ end. Fits end) }
    ensures steps { IfOk result (λ end. steps.new ≤ steps.old + 2 * length lists.old * end.members) }
    ensures steps_at_limit { OnErr result (steps.new ≤ steps.old + 2 * length lists.old * (MAX_MEMBERS + 1)) }
    ensures no_steps { result ≡ Err Memory → steps.new ≡ steps.old }
{
    find_cutoffs(modes, threshold, cutoffs);
    lower_lists(lists, cutoffs, threshold)?;
    count_members(lists, cutoffs, threshold, last, steps)
}
