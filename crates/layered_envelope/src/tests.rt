//! Worked layers, and that each call succeeds with ample memory. The expected values are those of a program in Python
//! that encloses and filters all isotopologues.
ghost use Rattle.std.specs.Prelude.{◌≡◌, ◌+◌, ◌<◌, ◌≤◌, IfOk, OnOk, length};
ghost use Rattle.multinomial_bounds.specs.Weight.{IsWeights};
ghost use Rattle.multinomial_bounds.specs.Isotopologue.{all_atoms};
ghost use Rattle.isotopologue_sets.specs.Layers.{AreElements};
ghost use Rattle.layered_envelope.specs.Layerings.{with_next};

use super::*;
use multinomial_bounds::Enclosure;
use outside_ports::Steps;
use std::alloc::{AllocError, Global};
use std::marker::Brand;
use std::sync::ledger::{Blank, Ledger};
use std::test::Fail;

const UNIT: u64 = 1_000_000_000_000_000_000;

/// Weights of carbon and of sulfur.
const CARBON: [u64; 2] = [989_300_000_000, 10_700_000_000];

const SULFUR: [u64; 4] = [949_900_000_000, 7_500_000_000, 42_500_000_000, 100_000_000];

/// Adds one element to a list of fewer than 20.
fn add_element(
    alloc: Global,
    elements: &mut Vec<ElementAtoms>,
    weights: &[u64],
    atoms: u32,
) -> Result<(), AllocError>
    requires weights_in_range { IsWeights weights.now }
    requires few_of_each { atoms ≤ 10000 }
    requires elements { AreElements elements.old.items }
    requires room { length elements.old.items < 20 }
    requires few_atoms { all_atoms elements.old.items + atoms ≤ 20000 }
    ensures elements { OnOk result (AreElements elements.new.items) }
    ensures more { OnOk result (length elements.new.items ≡ length elements.old.items + 1) }
    ensures more_atoms { OnOk result (all_atoms elements.new.items ≡ all_atoms elements.old.items + atoms) }
{
    let element = ElementAtoms::of(alloc, weights, atoms)?;
    elements.push(element)?;
    Ok(())
}

/// The layers of no element.
fn layers_of_none(alloc: Global) -> Result<Layers, AllocError>
    ensures given { IfOk result (λ l. l.given ≡ 0) }
    ensures elements { IfOk result (λ l. length l.elements ≡ 0) }
{
    Layers::start(alloc, Vec::new(alloc))
}

/// The layers of one element.
fn layers_of_one(alloc: Global, weights: &[u64], atoms: u32) -> Result<Layers, AllocError>
    requires weights_in_range { IsWeights weights.now }
    requires few { atoms ≤ 10000 }
    ensures given { IfOk result (λ l. l.given ≡ 0) }
    ensures elements { IfOk result (λ l. length l.elements ≡ 1) }
{
    let mut elements = Vec::new(alloc);
    add_element(alloc, &mut elements, weights, atoms)?;
    Layers::start(alloc, elements)
}

/// The layers of two elements.
fn layers_of_two(
    alloc: Global,
    first: &[u64],
    first_atoms: u32,
    second: &[u64],
    second_atoms: u32,
) -> Result<Layers, AllocError>
    requires first { IsWeights first.now }
    requires few_first { first_atoms ≤ 10000 }
    requires second { IsWeights second.now }
    requires few_second { second_atoms ≤ 10000 }
    ensures given { IfOk result (λ l. l.given ≡ 0) }
    ensures elements { IfOk result (λ l. length l.elements ≡ 2) }
{
    let mut elements = Vec::new(alloc);
    add_element(alloc, &mut elements, first, first_atoms)?;
    add_element(alloc, &mut elements, second, second_atoms)?;
    Layers::start(alloc, elements)
}

fn next_with<L: Ledger>(layers: &mut Layers, blank: Blank) -> Result<Option<LayerEnd>, LayerFault>
    requires name { blank.name ≡ L.name }
    requires parts { blank.parts ≡ L.parts }
    requires some { 0 < blank.parts }
    ensures { IfOk result (λ end. layers.new ≡ with_next layers.old end) }
{
    let mut steps = Steps::<L>::new(blank);
    layers.next_layer(&mut steps)
}

/// The next layer, with a counter of steps of its own.
fn next(layers: &mut Layers) -> Result<Option<LayerEnd>, LayerFault>
    ensures { IfOk result (λ end. layers.new ≡ with_next layers.old end) }
{
    next_with::<Brand>(layers, Blank::new(1))
}

fn gather_with<L: Ledger>(
    alloc: Global,
    members: &mut Members<'_>,
    elements: usize,
    blank: Blank,
) -> Result<Vec<usize>, AllocError>
    requires name { blank.name ≡ L.name }
    requires parts { blank.parts ≡ L.parts }
    requires some { 0 < blank.parts }
    requires one_each { length members.old.elements ≡ elements }
{
    let mut steps = Steps::<L>::new(blank);
    let mut out = Member::of(alloc, vec![in alloc; 0usize; elements]?.as_slice())?;
    let mut places = Vec::new(alloc);
    while members.next_into(&mut out, &mut steps) {
        places.extend_from_slice(out.places())?;
    }
    Ok(places)
}

/// The places of all members that are left, one member after another.
fn gather(
    alloc: Global,
    members: &mut Members<'_>,
    elements: usize,
) -> Result<Vec<usize>, AllocError>
    requires { length members.old.elements ≡ elements }
{
    gather_with::<Brand>(alloc, members, elements, Blank::new(1))
}

/// The token of a walk that goes on after these places, and behind it the places of all members that are left.
fn resumed(
    alloc: Global,
    layers: &Layers,
    after: &[usize],
    elements: usize,
) -> Result<Vec<usize>, MemberFault>
    requires given { 1 ≤ layers.now.given }
    requires one_each { length layers.now.elements ≡ elements }
{
    let after = Member::of(alloc, after)?;
    let mut members = Members::resume(layers, &after)?;
    let mut places = Vec::new(alloc);
    if let Some(token) = members.token()? {
        places.extend_from_slice(token.places())?;
    }
    let rest = gather(alloc, &mut members, elements)?;
    places.extend_from_slice(&rest)?;
    Ok(places)
}

/// The same with the token of a walk; nothing where it gave no member yet.
fn resumed_with_token(
    alloc: Global,
    layers: &Layers,
    members: &Members<'_>,
    elements: usize,
) -> Result<Vec<usize>, MemberFault>
    requires given { 1 ≤ layers.now.given }
    requires one_each { length layers.now.elements ≡ elements }
{
    match members.token()? {
        Some(token) => resumed(alloc, layers, token.places(), elements),
        None => Ok(Vec::new(alloc)),
    }
}

fn resumed_after_each_with<L: Ledger>(
    alloc: Global,
    layers: &Layers,
    elements: usize,
    blank: Blank,
) -> Result<Vec<usize>, MemberFault>
    requires name { blank.name ≡ L.name }
    requires parts { blank.parts ≡ L.parts }
    requires some { 0 < blank.parts }
    requires given { 1 ≤ layers.now.given }
    requires one_each { length layers.now.elements ≡ elements }
{
    let mut steps = Steps::<L>::new(blank);
    let mut out = Member::of(alloc, vec![in alloc; 0usize; elements]?.as_slice())?;
    let mut members = layers.members()?;
    let mut places = Vec::new(alloc);
    while members.next_into(&mut out, &mut steps) {
        let rest = resumed_with_token(alloc, layers, &members, elements)?;
        places.extend_from_slice(&rest)?;
    }
    Ok(places)
}

/// For each member of the layer, one after another, the token taken behind it and what a walk resumed with it gives.
fn resumed_after_each(
    alloc: Global,
    layers: &Layers,
    elements: usize,
) -> Result<Vec<usize>, MemberFault>
    requires given { 1 ≤ layers.now.given }
    requires one_each { length layers.now.elements ≡ elements }
{
    resumed_after_each_with::<Brand>(alloc, layers, elements, Blank::new(1))
}

fn end(threshold: u64, members: u64, lo_total: u128, hi_total: u128) -> LayerEnd {
    LayerEnd {
        threshold,
        members,
        lo_total,
        hi_total,
    }
}

/// The layers of two atoms of two equal isotopes, of which two were given.
fn two_equal_atoms(alloc: Global) -> Result<(Layers, LayerEnd, LayerEnd), Fail>
    ensures given { IfOk result (λ r. r.0.given ≡ 2) }
    ensures elements { IfOk result (λ r. length r.0.elements ≡ 1) }
{
    let mut layers = layers_of_one(alloc, &[500_000_000_000, 500_000_000_000], 2)?;
    let first = next(&mut layers)?.ok_or("no layer")?;
    let second = next(&mut layers)?.ok_or("no layer")?;
    Ok((layers, first, second))
}

#[test]
fn two_atoms_of_equal_isotopes_have_a_layer_of_one_and_then_of_three(
    rt: HostRuntime,
) -> Result<(), Fail> {
    let alloc = rt.alloc();
    let (layers, first, second) = two_equal_atoms(alloc)?;
    let half = u128::from(UNIT) / 2;
    assert_eq!(rt; first, end(UNIT / 4, 1, half, half));
    assert_eq!(rt; second, end(UNIT / 8, 3, 2 * half, 2 * half));
    let mut members = layers.members()?;
    assert!(rt; members.token()?.is_none());
    assert_eq!(rt;
        gather(alloc, &mut members, 1)?.as_slice(),
        [0, 1, 2].as_slice()
    );
    Ok(())
}

/// So many atoms of carbon and of sulfur.
fn carbon_and_sulfur(
    alloc: Global,
    carbon: u32,
    sulfur: u32,
) -> Result<Vec<ElementAtoms>, AllocError>
    requires few_carbon { carbon ≤ 10000 }
    requires few_sulfur { sulfur ≤ 10000 }
    ensures { IfOk result (λ elements. AreElements elements.items) }
{
    let mut elements = Vec::new(alloc);
    add_element(alloc, &mut elements, &CARBON, carbon)?;
    add_element(alloc, &mut elements, &SULFUR, sulfur)?;
    Ok(elements)
}

/// Whether the first layers are the same with lists that are kept as with new ones. Gives the lists back.
fn are_same_with(
    alloc: Global,
    carbon: u32,
    sulfur: u32,
    kept: &mut GrownLists,
) -> Result<bool, Fail>
    requires few_carbon { carbon ≤ 10000 }
    requires few_sulfur { sulfur ≤ 10000 }
{
    let elements = carbon_and_sulfur(alloc, carbon, sulfur)?;
    let mut layers = Layers::start_with(alloc, &elements, kept)?;
    let mut fresh = Layers::start(alloc, elements)?;
    let mut are_same = true;
    for _ in 0..20 {
        let (end, same) = (next(&mut layers)?, next(&mut fresh)?);
        are_same &= end == same && end.is_some();
    }
    layers.give_back(kept);
    Ok(are_same)
}

#[test]
fn layers_are_the_same_with_lists_from_other_formulas(rt: HostRuntime) -> Result<(), Fail> {
    let alloc = rt.alloc();
    let mut kept = GrownLists::new(alloc);
    for (carbon, sulfur) in [(6, 2), (7, 2), (7, 3), (6, 2), (6, 3)] {
        assert!(rt; are_same_with(alloc, carbon, sulfur, &mut kept)?);
    }
    let list = kept.take(&CARBON, 6).ok_or("no list is kept")?;
    assert!(rt; list.kept_items() > 0);
    assert!(rt; kept.take(&CARBON, 6).is_none());
    assert!(rt; kept.take(&CARBON, 5).is_none());
    kept.keep(list);
    assert!(rt; kept.take(&CARBON, 6).is_some());
    Ok(())
}

#[test]
fn a_walk_goes_on_after_each_member_and_after_nothing_else(rt: HostRuntime) -> Result<(), Fail> {
    let alloc = rt.alloc();
    let (layers, _first, _second) = two_equal_atoms(alloc)?;
    assert_eq!(rt;
        resumed(alloc, &layers, &[0], 1)?.as_slice(),
        [0, 1, 2].as_slice()
    );
    assert_eq!(rt;
        resumed(alloc, &layers, &[1], 1)?.as_slice(),
        [1, 2].as_slice()
    );
    assert_eq!(rt;
        resumed(alloc, &layers, &[2], 1)?.as_slice(),
        [2].as_slice()
    );
    assert_eq!(rt;
        resumed_after_each(alloc, &layers, 1)?.as_slice(),
        [0, 1, 2, 1, 2, 2].as_slice()
    );
    let none = Some(MemberFault::NotInLayer);
    assert_eq!(rt; resumed(alloc, &layers, &[3], 1).err(), none);
    assert_eq!(rt; resumed(alloc, &layers, &[0, 0], 1).err(), none);
    assert_eq!(rt; resumed(alloc, &layers, &[], 1).err(), none);
    Ok(())
}

#[test]
fn no_element_has_one_member_in_each_of_sixty_layers(rt: HostRuntime) -> Result<(), Fail> {
    let alloc = rt.alloc();
    let mut layers = layers_of_none(alloc)?;
    let unit = u128::from(UNIT);
    for step in 1..=60u32 {
        assert_eq!(rt; next(&mut layers)?, Some(end(UNIT >> step, 1, unit, unit)));
    }
    assert_eq!(rt; next(&mut layers)?, None);
    assert_eq!(rt; next(&mut layers)?, None);
    Ok(())
}

#[test]
fn the_members_of_two_elements_have_their_counts_and_enclosures(
    rt: HostRuntime,
) -> Result<(), Fail> {
    let alloc = rt.alloc();
    let mut layers = layers_of_two(alloc, &CARBON, 3, &SULFUR, 2)?;
    let one = 873_654_669_729_573_119;
    let first = next(&mut layers)?;
    assert_eq!(rt; first, Some(end(436_827_334_864_786_560, 1, one, one + 1)));
    let ends = [
        end(218_413_667_432_393_280, 1, one, one + 1),
        end(109_206_833_716_196_640, 1, one, one + 1),
        end(
            54_603_416_858_098_320,
            2,
            951_832_000_950_768_734,
            951_832_000_950_768_736,
        ),
        end(
            27_301_708_429_049_160,
            3,
            980_179_635_539_184_075,
            980_179_635_539_184_078,
        ),
    ];
    for end in ends {
        assert_eq!(rt; next(&mut layers)?, Some(end));
    }
    let last = next(&mut layers)?.ok_or("no layer")?;
    assert_eq!(rt;
        last,
        end(
            13_650_854_214_524_580,
            4,
            993_975_635_166_453_889,
            993_975_635_166_453_893
        )
    );
    let mut members = layers.members()?;
    assert_eq!(rt;
        gather(alloc, &mut members, 2)?.as_slice(),
        [0, 0, 0, 1, 0, 2, 1, 0].as_slice()
    );
    assert_eq!(rt;
        resumed(alloc, &layers, &[0, 1], 2)?.as_slice(),
        [0, 1, 0, 2, 1, 0].as_slice()
    );
    assert_eq!(rt;
        resumed(alloc, &layers, &[1, 1], 2).err(),
        Some(MemberFault::NotInLayer)
    );
    Ok(())
}

/// The counts of both elements in the first member of a layer, and the bounds of its enclosure.
fn first_member(alloc: Global, layers: &Layers) -> Result<(Vec<u32>, Enclosure), AllocError>
    requires given { 1 ≤ layers.now.given }
    requires two { length layers.now.elements ≡ 2 }
{
    first_member_with::<Brand>(alloc, layers, Blank::new(1))
}

fn first_member_with<L: Ledger>(
    alloc: Global,
    layers: &Layers,
    blank: Blank,
) -> Result<(Vec<u32>, Enclosure), AllocError>
    requires name { blank.name ≡ L.name }
    requires parts { blank.parts ≡ L.parts }
    requires some { 0 < blank.parts }
    requires given { 1 ≤ layers.now.given }
    requires two { length layers.now.elements ≡ 2 }
{
    let mut steps = Steps::<L>::new(blank);
    let mut members = layers.members()?;
    let mut out = Member::of(alloc, &[0, 0])?;
    let mut counts = Vec::new(alloc);
    if members.next_into(&mut out, &mut steps) {
        counts.extend_from_slice(layers.spread(&out, 0))?;
        counts.extend_from_slice(layers.spread(&out, 1))?;
        if members.enclosure() == layers.enclosure(&out) {
            return Ok((counts, layers.enclosure(&out)));
        }
    }
    Ok((counts, Enclosure::certain()))
}

#[test]
fn the_first_member_is_that_of_all_modes(rt: HostRuntime) -> Result<(), Fail> {
    let alloc = rt.alloc();
    let mut layers = layers_of_two(alloc, &CARBON, 3, &SULFUR, 2)?;
    let _end = next(&mut layers)?.ok_or("no layer")?;
    let (counts, enclosure) = first_member(alloc, &layers)?;
    assert_eq!(rt; counts.as_slice(), [3, 0, 2, 0, 0, 0].as_slice());
    assert_eq!(rt; enclosure.lo, 873_654_669_729_573_119);
    assert_eq!(rt; enclosure.hi, 873_654_669_729_573_120);
    Ok(())
}

#[test]
fn a_layer_of_more_than_1048576_members_is_refused_and_the_last_one_stands(
    rt: HostRuntime,
) -> Result<(), Fail> {
    let alloc = rt.alloc();
    let mut layers = layers_of_two(alloc, &[1; 4], 40, &[1; 4], 40)?;
    for members in [3953, 31_533, 102_029, 239_981, 465_705, 789_877] {
        let end = next(&mut layers)?.ok_or("no layer")?;
        assert_eq!(rt; end.members, members);
    }
    let fault = LayerFault::TooMany {
        threshold: 118_352_271_440,
    };
    assert_eq!(rt; next(&mut layers).err(), Some(fault));
    assert_eq!(rt; next(&mut layers).err(), Some(fault));
    Ok(())
}
