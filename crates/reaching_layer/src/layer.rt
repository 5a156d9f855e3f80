//! From elements to their reaching layer.

use crate::fault::CoverFault;
use crate::fewest::fewest;
use crate::members::Members;
use crate::search::layers_to_reaching;
use isotopologue_sets::ElementAtoms;
use layered_envelope::{GrownLists, Layers};
use multinomial_bounds::Enclosure;
use std::alloc::{AllocError, Global};
use std::marker::Model;

/// The reaching layer of elements for a wanted coverage: its members by falling lower bound, ties in the
/// lexicographic order of their counts, of which the first are the cover.
#[derive(Drop)]
pub struct ReachingLayer {
    threshold: u64,
    size: usize,
    bound: usize,
    members: Members,
}

impl Model for ReachingLayer {
    ghost use Rattle.std.specs.Prelude.{◌≤◌, length};
    ghost use Rattle.isotopologue_sets.specs.Covers.{CoverNumbers};

    ghost Value = { CoverNumbers };

    ghost view = { λ l. record { threshold = l.threshold; size = l.size; bound = l.bound; members = l.members } };

    ghost invariant = { λ l. l.size ≤ length l.members };
}

impl ReachingLayer {
    ghost use Rattle.std.specs.Prelude.{◌≡◌, ◌<◌, ◌≤◌, length, slice_index_or};
    ghost use Rattle.std.specs.List.{concat};
    ghost use Rattle.isotopologue_sets.specs.Covers.{Member};

    /// The threshold of the layer that `reaching_layer` gave, in units of 10^-18: the upper bounds of its members
    /// are above it.
    pub fn threshold(&self) -> u64
        ensures { result ≡ self.now.threshold }
    {
        self.threshold
    }

    /// How many members the cover has. Of the layer that `reaching_layer` gave, as few, from the first one on, as have
    /// lower bounds that total at least the coverage.
    pub fn size(&self) -> usize
        ensures size { result ≡ self.now.size }
        ensures within { result ≤ length self.now.members }
    {
        self.size
    }

    /// The cover's bound. Of the layer that `reaching_layer` gave, so many of the greatest upper bounds, and no fewer,
    /// total at least the coverage, so that no set of fewer isotopologues has it.
    pub fn bound(&self) -> usize
        ensures { result ≡ self.now.bound }
    {
        self.bound
    }

    /// How many members the layer has.
    pub fn len(&self) -> usize
        ensures { result ≡ length self.now.members }
    {
        self.members.len()
    }

    /// The counts of the member at a place in the cover's order, 0 first, one element after another.
    pub fn counts(&self, place: usize) -> &[u32]
        requires { place < length self.now.members }
        ensures { (d : Member) → result.now ≡ concat (slice_index_or self.now.members place d).counts }
    {
        self.members.counts(place)
    }

    /// The enclosure of the member at a place in the cover's order, in units of 10^-18.
    pub fn enclosure(&self, place: usize) -> Enclosure
        requires { place < length self.now.members }
        ensures lo { (d : Member) → result.lo ≡ (slice_index_or self.now.members place d).lo }
        ensures hi { (d : Member) → result.hi ≡ (slice_index_or self.now.members place d).hi }
    {
        self.members.enclosure(place)
    }
}

ghost use Rattle.std.specs.Prelude.{◌≡◌, ◌+◌, ◌-◌, ◌*◌, ◌≤◌, All, IfOk, length, map};
ghost use Rattle.reader_answers.specs.Answers.{Gives};
ghost use Rattle.multinomial_bounds.specs.Bounds.{IsEnclosure};
ghost use Rattle.multinomial_bounds.specs.Isotopologue.{all_atoms, IsIsotopologue, isotopologue_weight, all_weight};
ghost use Rattle.isotopologue_sets.specs.Layers.{AreElements, threshold_at};
ghost use Rattle.isotopologue_sets.specs.Coverage.{max_coverage};
ghost use Rattle.isotopologue_sets.specs.Covers.{cover_numbers, member_of, ordered_layer, IsCover};
ghost use Rattle.reaching_layer.specs.LayerAnswers.{is_memory, numbers_unless_too_many};
ghost use Rattle.layered_envelope.specs.Layerings.{last_threshold};
ghost use Rattle.reaching_layer.specs.Searches.{IsPast, IsReachingNumber};

/// The reaching layer of elements for a wanted coverage in units of 10^-18, from 1 to 999,999 * 10^12.
///
/// `TooMany` comes exactly where a layer has more than 1,048,576 members and none before it has the coverage; its
/// threshold is that of this layer. `Memory` comes for want of memory.
pub fn reaching_layer(
    alloc: Global,
    elements: &[ElementAtoms],
    coverage: u64,
) -> Result<ReachingLayer, CoverFault>
    requires elements { AreElements elements.now }
    requires some { 1 ≤ coverage }
    requires below_one { coverage ≤ max_coverage }
    ensures cover { Gives is_memory result (numbers_unless_too_many elements.now coverage) }

    // What follows from these numbers.
    ensures isotopologues { IfOk result (λ l. All (λ m. IsIsotopologue elements.now m.counts) l.members) }
    ensures claims { IfOk result (λ l. IsCover elements.now coverage l.size l.bound l.members) }
    ensures encloses { IfOk result (λ l. All (λ m.
        IsEnclosure m.lo m.hi (isotopologue_weight elements.now m.counts) (all_weight elements.now)) l.members) }
    ensures width { IfOk result (λ l. All (λ m.
        m.hi ≤ m.lo + (2 * all_atoms elements.now + length elements.now - 1)) l.members) }
{
    reaching_layer_with(alloc, elements, coverage, &mut GrownLists::of_none(alloc))
}

/// The same, which begins with the lists of elements that an earlier one kept, and keeps those of its own.
pub fn reaching_layer_with(
    alloc: Global,
    elements: &[ElementAtoms],
    coverage: u64,
    kept: &mut GrownLists,
) -> Result<ReachingLayer, CoverFault>
    requires elements { AreElements elements.now }
    requires some { 1 ≤ coverage }
    requires below_one { coverage ≤ max_coverage }
    ensures cover { Gives is_memory result (numbers_unless_too_many elements.now coverage) }

    // What follows from these numbers.
    ensures isotopologues { IfOk result (λ l. All (λ m. IsIsotopologue elements.now m.counts) l.members) }
    ensures claims { IfOk result (λ l. IsCover elements.now coverage l.size l.bound l.members) }
    ensures encloses { IfOk result (λ l. All (λ m.
        IsEnclosure m.lo m.hi (isotopologue_weight elements.now m.counts) (all_weight elements.now)) l.members) }
    ensures width { IfOk result (λ l. All (λ m.
        m.hi ≤ m.lo + (2 * all_atoms elements.now + length elements.now - 1)) l.members) }
{
    let (layers, first) = layers_to_reaching(alloc, elements, coverage, kept)?;
    let (layer, number) = layer_of(alloc, elements, &layers, first, coverage)?;
    layers.give_back(kept);
    kept.keep_layers(number);
    Ok(layer)
}

/// The reaching layer, which was given last or is an earlier one from the first on that can be it, and its number.
fn layer_of(
    alloc: Global,
    elements: &[ElementAtoms],
    layers: &Layers,
    first: u32,
    coverage: u64,
) -> Result<(ReachingLayer, u32), AllocError>
    requires elements { AreElements elements.now }
    requires past { IsPast elements.now coverage first layers.now }
    requires below_one { coverage ≤ max_coverage }
    ensures { IfOk result (λ found. found.0 ≡ cover_numbers elements.now coverage) }
{
    let (members, number) = reaching_members(alloc, elements, layers, first, coverage)?;
    let layer = ReachingLayer {
        threshold: layers.threshold_of(number),
        size: members.fewest_lower(coverage),
        bound: fewest(&members.greatest_upper_bounds(alloc)?, coverage),
        members,
    };
    Ok((layer, number))
}

/// The members of the reaching layer, and its number.
fn reaching_members(
    alloc: Global,
    elements: &[ElementAtoms],
    layers: &Layers,
    first: u32,
    coverage: u64,
) -> Result<(Members, u32), AllocError>
    requires elements { AreElements elements.now }
    requires past { IsPast elements.now coverage first layers.now }
    requires below_one { coverage ≤ max_coverage }
    ensures number { IfOk result (λ found. IsReachingNumber elements.now coverage layers.now.given found.1) }
    ensures members { IfOk result (λ found. found.0 ≡ map (member_of elements.now)
        (ordered_layer elements.now (threshold_at elements.now (found.1 - 1)))) }
{
    let mut members = Members::of_layer(alloc, elements, layers)?;
    let number = reaching_number(&members, layers, first, coverage);
    if number < layers.given() {
        members.retain_above(layers.threshold_of(number));
    }
    Ok((members, number))
}

/// The number of the reaching layer, from the members of the layer given last.
fn reaching_number(members: &Members, layers: &Layers, first: u32, coverage: u64) -> u32
    requires elements { AreElements layers.now.elements }
    requires past { IsPast layers.now.elements coverage first layers.now }
    requires below_one { coverage ≤ max_coverage }
    requires members { members.now ≡ map (member_of layers.now.elements)
        (ordered_layer layers.now.elements (last_threshold layers.now)) }
    ensures { IsReachingNumber layers.now.elements coverage layers.now.given result }
{
    for number in first..layers.given() {
        let threshold = layers.threshold_of(number);
        if members.lower_total_above(threshold) >= u128::from(coverage) {
            return number;
        }
    }
    layers.given()
}
