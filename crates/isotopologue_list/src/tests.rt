//! Values that come from outside: worked examples.

ghost use Rattle.std.specs.Prelude.{◌≡◌, ◌<◌, ◌≤◌, All, IfOk, length, sum};
ghost use Rattle.multinomial_bounds.specs.Weight.{IsWeights};

use super::*;
use isotopologue_sets::ElementAtoms;
use multinomial_bounds::{MAX_ATOMS, enclose, mode_of};
use std::alloc::{AllocError, Global};
use std::process::Abort;
use std::test::Fail;

// A list of one element.
fn only(alloc: Global, weights: &[u64], atoms: u32) -> Result<Vec<ElementAtoms>, AllocError>
    requires weights_in_range { IsWeights weights.now }
    requires few_atoms { atoms ≤ MAX_ATOMS }
    ensures { IfOk result (λ v. length v.items ≡ 1) }
{
    let mut elements = Vec::new(alloc);
    elements.push(ElementAtoms::of(alloc, weights, atoms)?)?;
    Ok(elements)
}

// Fails unless the list has these counts at a place, with the enclosure that all moves from the mode give.
fn expect_enclosed(
    rt: &impl Abort,
    alloc: Global,
    list: &IsotopologueList,
    place: usize,
    weights: &[u64],
    counts: &[u32],
) -> Result<(), AllocError>
    requires weights_in_range { IsWeights weights.now }
    requires same_places { length counts.now ≡ length weights.now }
    requires few_atoms { sum counts.now ≤ MAX_ATOMS }
    requires place_within { place < length list.now }
    requires some_element { All (λ i. 0 < length i.counts) list.now }
{
    let (mode, _) = mode_of(alloc, weights, counts.iter().sum())?;
    let wanted = enclose(alloc, weights, &mode, counts)?;
    let found = list.enclosure(place);
    assert_eq!(rt; list.counts(place, 0), counts);
    assert_eq!(rt; (found.lo, found.hi), (wanted.lo, wanted.hi));
    Ok(())
}

#[test]
fn two_atoms_of_two_equal_isotopes_have_a_quarter_a_half_and_a_quarter(
    rt: HostRuntime,
) -> Result<(), Fail> {
    let elements = only(rt.alloc(), &[500_000_000, 500_000_000], 2)?;
    let list = IsotopologueList::of(rt.alloc(), &elements)?;
    assert_eq!(rt; list.len(), 3);
    let quarter = 250_000_000_000_000_000;
    let half = 500_000_000_000_000_000;
    let first = list.enclosure(0);
    assert_eq!(rt; (first.lo, first.hi), (quarter, quarter));
    let middle = list.enclosure(1);
    assert_eq!(rt; (middle.lo, middle.hi), (half, half));
    let last = list.enclosure(2);
    assert_eq!(rt; (last.lo, last.hi), (quarter, quarter));
    assert_eq!(rt; list.counts(0, 0), [0, 2].as_slice());
    assert_eq!(rt; list.counts(1, 0), [1, 1].as_slice());
    assert_eq!(rt; list.counts(2, 0), [2, 0].as_slice());
    Ok(())
}

#[test]
fn one_atom_of_three_equal_isotopes_has_a_third_by_floor_and_by_ceiling_each(
    rt: HostRuntime,
) -> Result<(), Fail> {
    let elements = only(rt.alloc(), &[300_000_000; 3], 1)?;
    let list = IsotopologueList::of(rt.alloc(), &elements)?;
    assert_eq!(rt; list.len(), 3);
    for place in 0..list.len() {
        let third = list.enclosure(place);
        assert_eq!(rt;
            (third.lo, third.hi),
            (333_333_333_333_333_333, 333_333_333_333_333_334)
        );
    }
    Ok(())
}

#[test]
fn carbon_dioxide_has_both_isotopes_of_carbon_with_six_counts_of_oxygen_each(
    rt: HostRuntime,
) -> Result<(), Fail> {
    let carbon = ElementAtoms::of(rt.alloc(), &[989_300_000, 10_700_000], 1)?;
    let oxygen = ElementAtoms::of(rt.alloc(), &[997_570_000, 380_000, 2_050_000], 2)?;
    let mut elements = Vec::new(rt.alloc());
    elements.push(carbon)?;
    elements.push(oxygen)?;
    assert_eq!(rt; count_up_to(&elements, 12), Some(12));
    assert_eq!(rt; count_up_to(&elements, 11), None);
    let list = IsotopologueList::of(rt.alloc(), &elements)?;
    assert_eq!(rt; list.len(), 12);
    let light = list.enclosure(11);
    assert_eq!(rt;
        (light.lo, light.hi),
        (984_497_843_717_570_000, 984_497_843_717_570_000)
    );
    let heavy = list.enclosure(5);
    assert_eq!(rt;
        (heavy.lo, heavy.hi),
        (10_648_061_182_430_000, 10_648_061_182_430_000)
    );
    assert_eq!(rt; list.counts(5, 0), [0, 1].as_slice());
    assert_eq!(rt; list.counts(5, 1), [2, 0, 0].as_slice());
    Ok(())
}

// The mode has hardly any atoms of the heavier isotopes.
#[test]
fn counts_of_300_atoms_have_the_enclosures_that_all_moves_give(
    rt: HostRuntime,
) -> Result<(), Fail> {
    let weights = [997_570_000, 380_000, 2_050_000];
    let elements = only(rt.alloc(), &weights, 300)?;
    let list = IsotopologueList::of(rt.alloc(), &elements)?;
    assert_eq!(rt; list.len(), 45_451);
    expect_enclosed(&rt, rt.alloc(), &list, 45_450, &weights, &[300, 0, 0])?;
    expect_enclosed(&rt, rt.alloc(), &list, 45_448, &weights, &[299, 0, 1])?;
    expect_enclosed(&rt, rt.alloc(), &list, 45_388, &weights, &[290, 3, 7])?;
    expect_enclosed(&rt, rt.alloc(), &list, 25_300, &weights, &[100, 150, 50])?;
    expect_enclosed(&rt, rt.alloc(), &list, 0, &weights, &[0, 0, 300])?;
    Ok(())
}

// The mode has 5, 4 and 3 atoms.
#[test]
fn counts_on_all_sides_of_the_mode_have_the_enclosures_that_all_moves_give(
    rt: HostRuntime,
) -> Result<(), Fail> {
    let weights = [400_000_000, 350_000_000, 250_000_000];
    let elements = only(rt.alloc(), &weights, 12)?;
    let list = IsotopologueList::of(rt.alloc(), &elements)?;
    assert_eq!(rt; list.len(), 91);
    expect_enclosed(&rt, rt.alloc(), &list, 59, &weights, &[5, 4, 3])?;
    expect_enclosed(&rt, rt.alloc(), &list, 66, &weights, &[6, 3, 3])?;
    expect_enclosed(&rt, rt.alloc(), &list, 34, &weights, &[2, 9, 1])?;
    expect_enclosed(&rt, rt.alloc(), &list, 70, &weights, &[7, 0, 5])?;
    expect_enclosed(&rt, rt.alloc(), &list, 0, &weights, &[0, 0, 12])?;
    expect_enclosed(&rt, rt.alloc(), &list, 90, &weights, &[12, 0, 0])?;
    Ok(())
}

#[test]
fn no_elements_have_one_isotopologue_which_is_certain(rt: HostRuntime) -> Result<(), Fail> {
    let elements = Vec::new(rt.alloc());
    let list = IsotopologueList::of(rt.alloc(), &elements)?;
    assert_eq!(rt; list.len(), 1);
    let certain = list.enclosure(0);
    assert_eq!(rt;
        (certain.lo, certain.hi),
        (1_000_000_000_000_000_000, 1_000_000_000_000_000_000)
    );
    assert_eq!(rt; count_up_to(&elements, 1), Some(1));
    assert_eq!(rt; count_up_to(&elements, 0), None);
    Ok(())
}

#[test]
fn isotopologues_of_10000_atoms_are_counted_up_to_a_limit(rt: HostRuntime) -> Result<(), Fail> {
    let two = only(rt.alloc(), &[3, 1], 10_000)?;
    assert_eq!(rt; count_up_to(&two, 1_048_576), Some(10_001));
    assert_eq!(rt; count_up_to(&two, 10_000), None);
    let sixteen = only(rt.alloc(), &[1; 16], 10_000)?;
    assert_eq!(rt; count_up_to(&sixteen, u64::MAX), None);
    Ok(())
}
