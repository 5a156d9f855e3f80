//! The members of a layer, all at once: their counts end to end, and a row for each.
//!
//! The lists are gone through as they are for counting, and what is chosen of the first elements is kept as counts too.
//! Of the last list a member costs one comparison, one product with both roundings, and two pieces of counts.
ghost use Rattle.std.specs.Prelude.{◌≡◌, ◌<◌, ◌≤◌, ◌∷◌, [], IfOk, OnOk, fold};
ghost use Rattle.multinomial_bounds.specs.Bounds.{certainty};
ghost use Rattle.layered_envelope.specs.ChosenPlaces.{AllFall, firsts};
ghost use Rattle.layered_envelope.specs.Walks.{upper, his_of};
ghost use Rattle.layered_envelope.specs.Cutoffs.{AreCutoffs};
ghost use Rattle.layered_envelope.specs.Gatherings.{GathersAll, IsPushed};

use crate::cutoffs::{find_cutoffs, is_over};
use crate::layers::Layers;
use crate::walk::exceeds;
use multinomial_bounds::{Enclosure, times};
use std::alloc::{AllocError, Global};
use sub_isotopologues::SubIsos;

/// A member among others: its enclosure, and where its counts begin.
#[derive(Clone, Copy)]
pub struct MemberRow {
    /// The enclosure of its probability, in units of 10^-18.
    pub enclosure: Enclosure,
    /// The place of its first count in the counts of all.
    pub start: usize,
}

/// Members that are gathered, and the counts that are chosen of the first elements for the next ones.
#[derive(Drop)]
pub(crate) struct Gathering {
    pub(crate) chosen: Vec<u32>,
    pub(crate) counts: Vec<u32>,
    pub(crate) rows: Vec<MemberRow>,
}

/// Room for so many members of lists, without one.
fn room_for(alloc: Global, lists: &[SubIsos], members: usize) -> Result<Gathering, AllocError>
    ensures chosen { IfOk result (λ g. g.chosen.items ≡ []) }
    ensures counts { IfOk result (λ g. g.counts.items ≡ []) }
    ensures rows { IfOk result (λ g. g.rows.items ≡ []) }
{
    let mut width: usize = 0;
    for list in lists {
        width = width.saturating_add(list.weights().len());
    }
    Ok(Gathering {
        chosen: Vec::with_capacity(alloc, width)?,
        counts: Vec::with_capacity(alloc, width.saturating_mul(members))?,
        rows: Vec::with_capacity(alloc, members)?,
    })
}

/// Appends the members above the threshold that begin with what is chosen, whose product is `before`.
#[cycle(gathering)]
pub(crate) fn gather_chosen(
    lists: &[SubIsos],
    cutoffs: &[u64],
    threshold: u64,
    before: Enclosure,
    gathering: &mut Gathering,
) -> Result<(), AllocError>
    requires falling { AllFall (his_of lists.now) }
    requires cutoffs { AreCutoffs threshold (firsts (his_of lists.now)) cutoffs.now }
    requires above { threshold < fold upper before.hi (firsts (his_of lists.now)) }
    ensures { OnOk result (GathersAll threshold before.lo before.hi lists.now gathering.old gathering.new) }
{
    match lists.split_first() {
        None => push_member(before, &[], gathering),
        Some((list, later)) => gather_items(list, later, cutoffs, threshold, before, gathering),
    }
}

/// Appends the same that begin with what is chosen and any item of this list.
#[cycle(gathering)]
fn gather_items(
    list: &SubIsos,
    later: &[SubIsos],
    cutoffs: &[u64],
    threshold: u64,
    before: Enclosure,
    gathering: &mut Gathering,
) -> Result<(), AllocError>
    requires falling { AllFall (his_of (list.now ∷ later.now)) }
    requires cutoffs { AreCutoffs threshold (firsts (his_of (list.now ∷ later.now))) cutoffs.now }
    requires above { threshold < fold upper before.hi (firsts (his_of (list.now ∷ later.now))) }
    ensures { OnOk result
        (GathersAll threshold before.lo before.hi (list.now ∷ later.now) gathering.old gathering.new) }
{
    if later.is_empty() {
        return gather_last(list, threshold, before, gathering);
    }
    let cutoff = cutoffs[0];
    let later_cutoffs = &cutoffs[1..];
    let length = gathering.chosen.len();
    for choice in list.items() {
        let item = choice.enclosure();
        if !is_over(before.hi, item.hi, cutoff) {
            return Ok(());
        }
        gathering.chosen.extend_from_slice(choice.counts())?;
        let product = times(before, item);
        gather_chosen(later, later_cutoffs, threshold, product, gathering)?;
        gathering.chosen.truncate(length);
    }
    Ok(())
}

/// Appends the same where this list is the last one.
fn gather_last(
    list: &SubIsos,
    threshold: u64,
    before: Enclosure,
    gathering: &mut Gathering,
) -> Result<(), AllocError>
    requires falling { AllFall (his_of (list.now ∷ [])) }
    ensures { OnOk result (GathersAll threshold before.lo before.hi (list.now ∷ []) gathering.old gathering.new) }
{
    for choice in list.items() {
        let item = choice.enclosure();
        if !exceeds(before.hi, item.hi, threshold) {
            return Ok(());
        }
        push_member(times(before, item), choice.counts(), gathering)?;
    }
    Ok(())
}

/// Appends a member: what is chosen and the last counts, with the enclosure of their product.
fn push_member(
    enclosure: Enclosure,
    last: &[u32],
    gathering: &mut Gathering,
) -> Result<(), AllocError>
    ensures { OnOk result (IsPushed enclosure last.now gathering.old gathering.new) }
{
    let start = gathering.counts.len();
    gathering.rows.push(MemberRow { enclosure, start })?;
    gathering.counts.extend_from_slice(&gathering.chosen)?;
    gathering.counts.extend_from_slice(last)?;
    Ok(())
}

impl Layers {
    ghost use Rattle.std.specs.Prelude.{◌≡◌, ◌≤◌, IfOk};
    ghost use Rattle.layered_envelope.specs.Layerings.{last_places};
    ghost use Rattle.layered_envelope.specs.GatheredRows.{end_to_end, AreRows};

    /// All members of the layer given last, in lexicographic order of their places: their counts, end to end and each
    /// element after element, and a row for each. Memory is taken at once for all; it fails only for want of memory.
    pub fn gathered(&self) -> Result<(Vec<u32>, Vec<MemberRow>), AllocError>
        requires { 1 ≤ self.now.given }
        ensures counts { IfOk result (λ found.
            found.0.items ≡ end_to_end self.now.elements (last_places self.now)) }
        ensures rows { IfOk result (λ found. AreRows self.now.elements 0 (last_places self.now) found.1.items) }
    {
        let alloc = *self.lists.allocator();
        let lists = self.lists.as_slice();
        let threshold = self.mode_hi >> self.given;
        let mut cutoffs = vec![in alloc; 0; self.modes.len()]?;
        find_cutoffs(&self.modes, threshold, &mut cutoffs);
        let mut gathering = room_for(alloc, lists, self.last.members as usize)?;
        let certain = Enclosure::certain();
        gather_chosen(lists, &cutoffs, threshold, certain, &mut gathering)?;
        Ok((gathering.counts, gathering.rows))
    }
}
