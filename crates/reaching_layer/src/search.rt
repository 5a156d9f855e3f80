//! The search for the reaching layer: one layer after another, each of half the threshold before.
//!
//! Formulas of one mass have their reaching layers near to each other. So where an earlier formula's is known, the search
//! begins at the layer of that number: where it hasn't the coverage, none before it has, and where it has, the reaching
//! layer is it or one before it, whose members are among its own.
ghost use Rattle.std.specs.Prelude.{◌≡◌, ◌+◌, ◌-◌, ◌<◌, ◌≤◌, ℕ, false, IfErr, IfOk, OnOk, length};
ghost use Rattle.isotopologue_sets.specs.Layers.{AreElements, lo_total, layer, ends_search, has_too_many, threshold_at};
ghost use Rattle.isotopologue_sets.specs.Coverage.{max_coverage};
ghost use Rattle.layered_envelope.specs.Layerings.{Layering, last_threshold};
ghost use Rattle.reaching_layer.specs.Searches.{IsPast, EndsByFault, IsGuessed};

use crate::fault::CoverFault;
use isotopologue_sets::ElementAtoms;
use layered_envelope::{GrownLists, LayerFault, Layers};
use outside_ports::Steps;
use std::alloc::{AllocError, Global};
use std::marker::Brand;
use std::sync::ledger::{Blank, Ledger};

/// The 60th threshold is 0, since 60 halvings take away all of an upper bound, which is at most 10^18.
const MAX_LAYERS: u32 = 60;

/// The layers of elements up to the reaching layer or a later one, and the number of the first that can be the reaching
/// one. They begin with the lists that were kept, and at the layer that an earlier formula had.
pub(crate) fn layers_to_reaching(
    alloc: Global,
    elements: &[ElementAtoms],
    coverage: u64,
    kept: &mut GrownLists,
) -> Result<(Layers, u32), CoverFault>
    requires elements { AreElements elements.now }
    requires some { 1 ≤ coverage }
    requires below_one { coverage ≤ max_coverage }
    ensures layers { IfOk result (λ found. IsPast elements.now coverage found.1 found.0) }
    ensures fault { IfErr result (EndsByFault elements.now coverage) }
{
    let (mut layers, total) = start_at_guess(alloc, elements, kept)?;
    if total >= u128::from(coverage) {
        return Ok((layers, 1));
    }
    search_with::<Brand>(&mut layers, coverage, Blank::new(1))?;
    let first = layers.given();
    Ok((layers, first))
}

/// The layers of elements at the one that an earlier formula had, and what its lower bounds total. Before the first
/// layer, and of total 0, where there was no such formula or that layer has too many members.
fn start_at_guess(
    alloc: Global,
    elements: &[ElementAtoms],
    kept: &mut GrownLists,
) -> Result<(Layers, u128), AllocError>
    requires elements { AreElements elements.now }
    ensures { IfOk result (λ found. IsGuessed elements.now found.0 found.1) }
{
    let guess = kept.layers();
    let layers = Layers::start_with(alloc, elements, kept)?;
    if guess <= 1 || guess > MAX_LAYERS {
        return Ok((layers, 0));
    }
    match skipped_to::<Brand>(layers, guess, Blank::new(1)) {
        Ok(found) => Ok(found),
        Err(LayerFault::TooMany { .. }) => { Ok((Layers::start_with(alloc, elements, kept)?, 0)) }
        Err(LayerFault::Memory) => Err(AllocError),
    }
}

/// The layers from a later one on, and what its lower bounds total.
fn skipped_to<L: Ledger>(
    layers: Layers,
    number: u32,
    blank: Blank,
) -> Result<(Layers, u128), LayerFault>
    requires name { blank.name ≡ L.name }
    requires parts { blank.parts ≡ L.parts }
    requires some { 0 < blank.parts }
    requires later { layers.given < number }
    requires few { number ≤ 60 }
    ensures { IfOk result (λ found. (found.0 ≡ record { elements = layers.elements; given = number })
        × (found.1 ≡ lo_total layers.elements (layer layers.elements (threshold_at layers.elements (number - 1))))
        × (has_too_many layers.elements (threshold_at layers.elements (number - 1)) ≡ false)) }
{
    let mut steps = Steps::<L>::new(blank);
    let (layers, end) = layers.skip_to(number, &mut steps)?;
    Ok((layers, end.lo_total))
}

/// Gives layers up to the reaching layer. The layer of threshold 0 has the coverage or too many members, so one of the
/// layers does.
fn search_with<L: Ledger>(
    layers: &mut Layers,
    coverage: u64,
    blank: Blank,
) -> Result<(), CoverFault>
    requires name { blank.name ≡ L.name }
    requires parts { blank.parts ≡ L.parts }
    requires some { 0 < blank.parts }
    requires elements { AreElements layers.old.elements }
    requires below_one { coverage ≤ max_coverage }
    requires not_yet { (k : ℕ) → k < layers.old.given →
        ends_search layers.old.elements coverage (threshold_at layers.old.elements k) ≡ false }
    ensures layers { OnOk result (IsPast layers.old.elements coverage layers.new.given layers.new) }
    ensures fault { IfErr result (EndsByFault layers.old.elements coverage) }
{
    let mut steps = Steps::<L>::new(blank);
    for count in layers.given()..MAX_LAYERS {
        let Some(end) = layers.next_layer(&mut steps)? else {
            unreachable!()
        };
        if end.lo_total >= u128::from(coverage) {
            return Ok(());
        }
    }
    unreachable!()
}
