//! Values that come from outside: worked examples of layers, and that each call succeeds with ample memory.

ghost use Rattle.std.specs.Prelude.{◌≡◌, ◌+◌, ◌<◌, ◌≤◌, All, IfOk, OnOk, length};
ghost use Rattle.multinomial_bounds.specs.Weight.{IsWeights};
ghost use Rattle.multinomial_bounds.specs.Isotopologue.{all_atoms};
ghost use Rattle.isotopologue_sets.specs.Layers.{AreElements};
ghost use Rattle.isotopologue_sets.specs.Coverage.{max_coverage};
ghost use Rattle.layered_envelope.specs.Layerings.{with_next};

use super::*;
use isotopologue_list::IsotopologueList;
use isotopologue_sets::ElementAtoms;
use layered_envelope::{LayerEnd, LayerFault, Layers};
use multinomial_bounds::{Enclosure, MAX_ATOMS};
use outside_ports::Steps;
use std::alloc::{AllocError, Global};
use std::marker::Brand;
use std::process::Abort;
use std::sync::ledger::{Blank, Ledger};
use std::test::Fail;

const HALF: u64 = 500_000_000_000_000_000;

const QUARTER: u64 = 250_000_000_000_000_000;

const MOST: u64 = 999_999_000_000_000_000;

/// A list of one element.
fn only(alloc: Global, weights: &[u64], atoms: u32) -> Result<Vec<ElementAtoms>, AllocError>
    requires weights_in_range { IsWeights weights.now }
    requires few_atoms { atoms ≤ MAX_ATOMS }
    ensures { IfOk result (λ v. AreElements v.items) }
{
    let mut elements = Vec::new(alloc);
    elements.push(ElementAtoms::of(alloc, weights, atoms)?)?;
    Ok(elements)
}

/// Adds one element to a list of fewer than 20.
fn add_element(
    alloc: Global,
    elements: &mut Vec<ElementAtoms>,
    weights: &[u64],
    atoms: u32,
) -> Result<(), AllocError>
    requires weights_in_range { IsWeights weights.now }
    requires few_of_each { atoms ≤ MAX_ATOMS }
    requires elements { AreElements elements.old.items }
    requires room { length elements.old.items < 20 }
    requires few_atoms { all_atoms elements.old.items + atoms ≤ 20000 }
    ensures elements { OnOk result (AreElements elements.new.items) }
    ensures more { OnOk result (length elements.new.items ≡ length elements.old.items + 1) }
    ensures more_atoms { OnOk result (all_atoms elements.new.items ≡ all_atoms elements.old.items + atoms) }
{
    let element = ElementAtoms::of(alloc, weights, atoms)?;
    elements.push(element)?;
    Ok(())
}

/// One atom each of 20 elements of two equal isotopes, which have 2^20 isotopologues of the same probability.
fn twenty_pairs(alloc: Global) -> Result<Vec<ElementAtoms>, AllocError>
    ensures { IfOk result (λ v. AreElements v.items) }
{
    let mut elements = Vec::new(alloc);
    for count in 0..20u32 {
        add_element(alloc, &mut elements, &[1, 1], 1)?;
    }
    Ok(elements)
}

/// What a layer is to be: its members by their counts and bounds.
#[derive(Clone, Copy)]
struct Expected<'a> {
    threshold: u64,
    size: usize,
    bound: usize,
    members: &'a [(&'a [u32], u64, u64)],
}

fn expect(
    rt: &impl Abort,
    alloc: Global,
    elements: &[ElementAtoms],
    coverage: u64,
    expected: Expected,
) -> Result<(), CoverFault>
    requires elements { AreElements elements.now }
    requires some { 1 ≤ coverage }
    requires below_one { coverage ≤ max_coverage }
{
    let layer = reaching_layer(alloc, elements, coverage)?;
    assert_eq!(rt; layer.threshold(), expected.threshold);
    assert_eq!(rt; layer.size(), expected.size);
    assert_eq!(rt; layer.bound(), expected.bound);
    assert_eq!(rt; layer.len(), expected.members.len());
    for place in 0..layer.len() {
        if let Some((counts, lo, hi)) = expected.members.get(place) {
            assert_eq!(rt; layer.counts(place), *counts);
            assert_eq!(rt; layer.enclosure(place).lo, *lo);
            assert_eq!(rt; layer.enclosure(place).hi, *hi);
        }
    }
    Ok(())
}

#[test]
fn members_of_equal_bounds_stand_in_lexicographic_order(rt: HostRuntime) -> Result<(), Fail> {
    let alloc = rt.alloc();
    let pair = only(alloc, &[500_000_000, 500_000_000], 2)?;
    let members: &[(&[u32], u64, u64)] = &[
        (&[1, 1], HALF, HALF),
        (&[0, 2], QUARTER, QUARTER),
        (&[2, 0], QUARTER, QUARTER),
    ];
    let middle = Expected {
        threshold: QUARTER,
        size: 1,
        bound: 1,
        members: &members[..1],
    };
    expect(&rt, alloc, &pair, HALF, middle)?;
    let all = Expected {
        threshold: QUARTER / 2,
        size: 3,
        bound: 3,
        members,
    };
    expect(&rt, alloc, &pair, MOST, all)?;
    Ok(())
}

// Three of six equal sixths have half of the weights, and the lower bounds of three have less.
#[test]
fn three_of_six_equal_isotopes_reach_half_and_four_are_the_cover(
    rt: HostRuntime,
) -> Result<(), Fail> {
    let alloc = rt.alloc();
    let six = only(alloc, &[100_000_000; 6], 1)?;
    let (lo, hi) = (166_666_666_666_666_666, 166_666_666_666_666_667);
    let sixths = Expected {
        threshold: 83_333_333_333_333_333,
        size: 4,
        bound: 3,
        members: &[
            (&[0, 0, 0, 0, 0, 1], lo, hi),
            (&[0, 0, 0, 0, 1, 0], lo, hi),
            (&[0, 0, 0, 1, 0, 0], lo, hi),
            (&[0, 0, 1, 0, 0, 0], lo, hi),
            (&[0, 1, 0, 0, 0, 0], lo, hi),
            (&[1, 0, 0, 0, 0, 0], lo, hi),
        ],
    };
    expect(&rt, alloc, &six, HALF, sixths)?;
    Ok(())
}

#[test]
fn no_elements_have_one_certain_isotopologue(rt: HostRuntime) -> Result<(), Fail> {
    let none: Vec<ElementAtoms> = Vec::new(rt.alloc());
    let certain = 1_000_000_000_000_000_000;
    let one = Expected {
        threshold: HALF,
        size: 1,
        bound: 1,
        members: &[(&[], certain, certain)],
    };
    expect(&rt, rt.alloc(), &none, MOST, one)?;
    Ok(())
}

// The numbers of this layer and of the next are those of the definitions, in Python's whole numbers.
#[test]
fn three_elements_have_a_layer_of_eight_of_their_twelve_isotopologues(
    rt: HostRuntime,
) -> Result<(), Fail> {
    let alloc = rt.alloc();
    let mut elements = Vec::new(alloc);
    add_element(alloc, &mut elements, &[3, 1], 1)?;
    add_element(alloc, &mut elements, &[1, 1], 1)?;
    add_element(alloc, &mut elements, &[2, 1, 1], 1)?;
    let (first, second, third) = (
        187_500_000_000_000_000,
        93_750_000_000_000_000,
        62_500_000_000_000_000,
    );
    let eight = Expected {
        threshold: 46_875_000_000_000_000,
        size: 5,
        bound: 5,
        members: &[
            (&[1, 0, 0, 1, 1, 0, 0], first, first),
            (&[1, 0, 1, 0, 1, 0, 0], first, first),
            (&[1, 0, 0, 1, 0, 0, 1], second, second),
            (&[1, 0, 0, 1, 0, 1, 0], second, second),
            (&[1, 0, 1, 0, 0, 0, 1], second, second),
            (&[1, 0, 1, 0, 0, 1, 0], second, second),
            (&[0, 1, 0, 1, 1, 0, 0], third, third),
            (&[0, 1, 1, 0, 1, 0, 0], third, third),
        ],
    };
    expect(&rt, alloc, &elements, 600_000_000_000_000_000, eight)?;
    Ok(())
}

#[test]
fn one_hundred_atoms_of_three_equal_isotopes_have_a_layer_of_1614(
    rt: HostRuntime,
) -> Result<(), Fail> {
    let three = only(rt.alloc(), &[1; 3], 100)?;
    let layer = reaching_layer(rt.alloc(), &three, MOST)?;
    assert_eq!(rt; layer.threshold(), 7_757_866_316);
    assert_eq!(rt;
        (layer.len(), layer.size(), layer.bound()),
        (1_614, 1_584, 1_584)
    );
    expect_member(
        &rt,
        &layer,
        0,
        &[33, 33, 34],
        (8_134_712_430_416_295, 8_134_712_430_416_326),
    );
    expect_member(
        &rt,
        &layer,
        1,
        &[33, 34, 33],
        (8_134_712_430_416_295, 8_134_712_430_416_326),
    );
    expect_member(
        &rt,
        &layer,
        1_583,
        &[59, 22, 19],
        (9_549_780_072, 9_549_780_074),
    );
    expect_member(
        &rt,
        &layer,
        1_613,
        &[59, 23, 18],
        (7_888_948_755, 7_888_948_757),
    );
    Ok(())
}

/// Holds the member at a place against these counts and bounds.
fn expect_member(
    rt: &impl Abort,
    layer: &ReachingLayer,
    place: usize,
    counts: &[u32],
    bounds: (u64, u64),
) {
    assert!(rt; place < layer.len());
    assert_eq!(rt; layer.counts(place), counts);
    let enclosure = layer.enclosure(place);
    assert_eq!(rt; (enclosure.lo, enclosure.hi), bounds);
}

#[test]
fn layers_of_1048576_members_are_not_too_many(rt: HostRuntime) -> Result<(), Fail> {
    let elements = twenty_pairs(rt.alloc())?;
    let layer = reaching_layer(rt.alloc(), &elements, 2_861_022_949_218)?;
    assert_eq!(rt; layer.threshold(), 476_837_158_203);
    assert_eq!(rt;
        (layer.len(), layer.size(), layer.bound()),
        (1_048_576, 3, 3)
    );
    Ok(())
}

// 7 * 163 * 919 are 1,048,579 isotopologues, of which the first layer has the coverage.
#[test]
fn more_isotopologues_than_a_layer_may_have_have_a_cover(rt: HostRuntime) -> Result<(), Fail> {
    let mut elements = Vec::new(rt.alloc());
    add_element(rt.alloc(), &mut elements, &[1, 1], 6)?;
    add_element(rt.alloc(), &mut elements, &[1, 1], 162)?;
    add_element(rt.alloc(), &mut elements, &[1, 1], 918)?;
    let layer = reaching_layer(rt.alloc(), &elements, 1)?;
    assert_eq!(rt; layer.threshold(), 257_473_671_482_243);
    assert_eq!(rt; (layer.len(), layer.size(), layer.bound()), (907, 1, 1));
    expect_member(
        &rt,
        &layer,
        0,
        &[3, 3, 81, 81, 459, 459],
        (514_947_342_964_480, 514_947_342_964_487),
    );
    Ok(())
}

// The first layer has 11,240,208 members.
#[test]
fn layers_of_more_members_are_refused_with_their_threshold(rt: HostRuntime) -> Result<(), Fail> {
    let many = only(rt.alloc(), &[1; 16], 100)?;
    match reaching_layer(rt.alloc(), &many, HALF) {
        Ok(_) => rt.abort(),
        Err(fault) => {
            let threshold = 1_442_992;
            assert_eq!(rt; fault, CoverFault::TooMany { threshold });
            let text = format!(in rt.alloc(); "{fault}")?;
            assert_eq!(rt;
                text.as_str(),
                "the layer of threshold 1442992 has more than 1,048,576 members"
            );
            Ok(())
        }
    }
}

/// How many of these enclosures have an upper bound above a threshold, and what their lower bounds total.
fn above(enclosures: &[Enclosure], threshold: u64) -> (usize, u128) {
    let mut count: usize = 0;
    let mut total: u128 = 0;
    for enclosure in enclosures {
        if enclosure.hi > threshold {
            count = count.saturating_add(1);
            total = total.saturating_add(u128::from(enclosure.lo));
        }
    }
    (count, total)
}

/// Some counts from a place on.
fn counts_at(counts: &[u32], start: usize, width: usize) -> &[u32] {
    let rest = &counts[start.min(counts.len())..];
    &rest[..width.min(rest.len())]
}

/// Whether counts, one element after another, are those at a place of a list.
fn are_counts(counts: &[u32], list: &IsotopologueList, place: usize, elements: usize) -> bool
    requires within { place < length list.now }
    requires as_many { All (λ i. length i.counts ≡ elements) list.now }
{
    let mut start: usize = 0;
    for element in 0..elements {
        let listed = list.counts(place, element);
        if counts_at(counts, start, listed.len()) != listed {
            return false;
        }
        start = start.saturating_add(listed.len());
    }
    start == counts.len()
}

/// Whether a list has these counts with this enclosure.
fn stand_in(list: &IsotopologueList, elements: usize, counts: &[u32], enclosure: Enclosure) -> bool
    requires as_many { All (λ i. length i.counts ≡ elements) list.now }
{
    for place in 0..list.len() {
        if list.enclosure(place) == enclosure && are_counts(counts, list, place, elements) {
            return true;
        }
    }
    false
}

/// Whether one member stands before another: by falling lower bound, ties in lexicographic order.
fn stands_before(layer: &ReachingLayer, place: usize, other: usize) -> bool
    requires place { place < length layer.now.members }
    requires other { other < length layer.now.members }
{
    let (lo, other_lo) = (layer.enclosure(place).lo, layer.enclosure(other).lo);
    if lo != other_lo {
        return lo > other_lo;
    }
    layer.counts(place).cmp(layer.counts(other)).is_lt()
}

/// Holds the members of a layer against a list: each once, in the cover's order, and above the threshold.
fn expect_listed(rt: &impl Abort, layer: &ReachingLayer, list: &IsotopologueList, elements: usize)
    requires as_many { All (λ i. length i.counts ≡ elements) list.now }
{
    for place in 0..layer.len() {
        let enclosure = layer.enclosure(place);
        assert!(rt; enclosure.hi > layer.threshold());
        assert!(rt; stand_in(list, elements, layer.counts(place), enclosure));
        if place > 0 {
            assert!(rt; stands_before(layer, place - 1, place));
        }
    }
}

/// Holds the reaching layers of some coverages against the list of all isotopologues.
fn expect_layers_of_list(
    rt: &impl Abort,
    alloc: Global,
    elements: &[ElementAtoms],
) -> Result<(), CoverFault>
    requires elements { AreElements elements.now }
{
    let list = IsotopologueList::of(alloc, elements)?;
    for coverage in [HALF, 990_000_000_000_000_000, MOST] {
        let layer = reaching_layer(alloc, elements, coverage)?;
        let (members, total) = above(list.enclosures(), layer.threshold());
        assert_eq!(rt; layer.len(), members);
        assert!(rt; total >= u128::from(coverage));
        let before = layer.threshold().saturating_mul(2).saturating_add(1);
        let (_, before) = above(list.enclosures(), before);
        assert!(rt; before < u128::from(coverage));
        expect_listed(rt, &layer, &list, elements.len());
    }
    Ok(())
}

// The plain way to a layer goes over the list of all isotopologues.
#[test]
fn layers_are_those_of_the_list_of_all_isotopologues(rt: HostRuntime) -> Result<(), Fail> {
    let alloc = rt.alloc();
    let sulfur = [949_900_000, 7_500_000, 42_500_000, 100_000];
    let mut two = Vec::new(alloc);
    add_element(alloc, &mut two, &[989_300_000, 10_700_000], 60)?;
    add_element(alloc, &mut two, &sulfur, 9)?;
    expect_layers_of_list(&rt, alloc, &two)?;
    let mut three = Vec::new(alloc);
    add_element(alloc, &mut three, &[989_300_000, 10_700_000], 3)?;
    add_element(alloc, &mut three, &sulfur, 2)?;
    add_element(alloc, &mut three, &[757_600_000, 242_400_000], 2)?;
    expect_layers_of_list(&rt, alloc, &three)?;
    Ok(())
}

fn next_with<L: Ledger>(layers: &mut Layers, blank: Blank) -> Result<Option<LayerEnd>, LayerFault>
    requires name { blank.name ≡ L.name }
    requires parts { blank.parts ≡ L.parts }
    requires some { 0 < blank.parts }
    ensures { IfOk result (λ end. layers.new ≡ with_next layers.old end) }
{
    let mut steps = Steps::<L>::new(blank);
    layers.next_layer(&mut steps)
}

/// The next layer, how many of its members have an upper bound above a number, and the counts of the others, of so many
/// isotopes each.
fn next_added(
    alloc: Global,
    layers: &mut Layers,
    above: u64,
    width: usize,
) -> Result<Option<(LayerEnd, u64, Vec<u32>)>, Fail> {
    let Some(end) = next_with::<Brand>(layers, Blank::new(1))? else {
        return Ok(None);
    };
    let (counts, rows) = layers.gathered()?;
    let mut older: u64 = 0;
    let mut added = Vec::new(alloc);
    for row in rows.as_slice() {
        if row.enclosure.hi > above {
            older = older.saturating_add(1);
        } else {
            added.extend_from_slice(counts_at(&counts, row.start, width))?;
        }
    }
    Ok(Some((end, older, added)))
}

/// How often the counts of the isotopologue at a place of a list, of 2 and 4 isotopes, are among counts end to end.
fn times_found(all: &[u32], list: &IsotopologueList, place: usize) -> usize
    requires within { place < length list.now }
    requires two { All (λ i. length i.counts ≡ 2) list.now }
{
    let (first, second) = (list.counts(place, 0), list.counts(place, 1));
    let mut times: usize = 0;
    for member in 0..all.len() / 6 {
        let start = 6 * member;
        if counts_at(all, start, 2) == first && counts_at(all, start + 2, 4) == second {
            times = times.saturating_add(1);
        }
    }
    times
}

#[test]
fn what_layers_add_one_after_another_are_all_isotopologues_each_once(
    rt: HostRuntime,
) -> Result<(), Fail> {
    let alloc = rt.alloc();
    let mut elements = Vec::new(alloc);
    add_element(alloc, &mut elements, &[989_300_000, 10_700_000], 3)?;
    add_element(
        alloc,
        &mut elements,
        &[949_900_000, 7_500_000, 42_500_000, 100_000],
        2,
    )?;
    let list = IsotopologueList::of(alloc, &elements)?;
    let mut layers = Layers::start(alloc, elements)?;
    let mut all: Vec<u32> = Vec::new(alloc);
    let (mut above, mut members) = (u64::MAX, 0);
    for _ in 0..60 {
        let (end, older, added) = next_added(alloc, &mut layers, above, 6)?.ok_or("no layer")?;
        assert_eq!(rt; older, members);
        let found = (added.len() / 6) as u64;
        assert_eq!(rt; older.saturating_add(found), end.members);
        all.extend_from_slice(&added)?;
        (above, members) = (end.threshold, end.members);
    }
    assert_eq!(rt; (above, members, list.len()), (0, 40, 40));
    assert_eq!(rt; all.len(), 240);
    for place in 0..list.len() {
        assert_eq!(rt; times_found(&all, &list, place), 1);
    }
    Ok(())
}
