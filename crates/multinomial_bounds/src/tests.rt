//! Values that come from outside: worked examples, and exact weights of small elements.

ghost use Rattle.std.specs.Prelude.{◌≡◌, ◌+◌, ◌*◌, ◌^◌, ◌<◌, ◌≤◌, length, sum};
ghost use Rattle.multinomial_bounds.specs.Weight.{IsWeights, total_of};

use super::*;
use crate::exact::exact_weight;
use std::alloc::Global;
use std::process::Abort;
use std::test::Fail;

// The weights of carbon and oxygen, in units of 10^-9.
const CARBON: [u64; 2] = [989_300_000, 10_700_000];

const OXYGEN: [u64; 3] = [997_570_000, 380_000, 2_050_000];

#[test]
fn carbon_dioxide_has_the_enclosures_of_its_example(rt: HostRuntime) -> Result<(), Fail> {
    let (carbon, one) = mode_of(rt.alloc(), &CARBON, 1)?;
    assert_eq!(rt; carbon.counts(), [1, 0].as_slice());
    let (oxygen, two) = mode_of(rt.alloc(), &OXYGEN, 2)?;
    assert_eq!(rt; oxygen.counts(), [2, 0, 0].as_slice());
    let light = times(one, two);
    assert_eq!(rt;
        (light.lo, light.hi),
        (984_497_843_717_570_000, 984_497_843_717_570_000)
    );
    let heavy = times(enclose(rt.alloc(), &CARBON, &carbon, &[0, 1])?, two);
    assert_eq!(rt;
        (heavy.lo, heavy.hi),
        (10_648_061_182_430_000, 10_648_061_182_430_000)
    );
    Ok(())
}

#[test]
fn equal_isotopes_tie_to_the_lightest(rt: HostRuntime) -> Result<(), Fail> {
    let weights = [500_000_000, 500_000_000];
    let (one, _) = mode_of(rt.alloc(), &weights, 1)?;
    assert_eq!(rt; one.counts(), [1, 0].as_slice());
    let (mode, middle) = mode_of(rt.alloc(), &weights, 2)?;
    assert_eq!(rt; mode.counts(), [1, 1].as_slice());
    assert_eq!(rt;
        (middle.lo, middle.hi),
        (500_000_000_000_000_000, 500_000_000_000_000_000)
    );
    for outer in [[2, 0], [0, 2]] {
        let moved = if outer[0] == 2 {
            move_down(middle, &weights, mode.counts(), 1, 0)
        } else {
            move_down(middle, &weights, mode.counts(), 0, 1)
        };
        assert_eq!(rt;
            (moved.lo, moved.hi),
            (250_000_000_000_000_000, 250_000_000_000_000_000)
        );
    }
    assert!(rt; is_mode(&weights, &[1, 1]));
    assert!(rt; is_mode(&weights, &[0, 1]));
    assert!(rt; !is_mode(&weights, &[0, 2]));
    Ok(())
}

#[test]
fn ends_of_a_third_differ_by_one_unit(rt: HostRuntime) -> Result<(), Fail> {
    let (mode, first) = mode_of(rt.alloc(), &[300_000_000; 3], 1)?;
    assert_eq!(rt; mode.counts(), [1, 0, 0].as_slice());
    assert_eq!(rt;
        (first.lo, first.hi),
        (333_333_333_333_333_333, 333_333_333_333_333_334)
    );
    Ok(())
}

#[test]
fn a_mode_found_with_other_weights_is_enclosed_with_these(rt: HostRuntime) -> Result<(), Fail> {
    let (mode, _) = mode_of(rt.alloc(), &[2, 1], 1)?;
    let first = enclose(rt.alloc(), &[1, 1], &mode, &[1, 0])?;
    assert_eq!(rt;
        (first.lo, first.hi),
        (500_000_000_000_000_000, 500_000_000_000_000_000)
    );
    Ok(())
}

// The numbers are those of the definitions, in Python's fractions and whole numbers.
#[test]
fn counts_of_10000_atoms_are_enclosed(rt: HostRuntime) -> Result<(), Fail> {
    let (mode, likeliest) = mode_of(rt.alloc(), &CARBON, MAX_ATOMS)?;
    assert_eq!(rt; mode.counts(), [9_893, 107].as_slice());
    assert_eq!(rt; likeliest.hi - likeliest.lo, 6_619);
    hold_carbon(
        &rt,
        rt.alloc(),
        9_893,
        107,
        (38_745_020_829_084_513, 38_745_020_829_091_132),
    )?;
    hold_carbon(&rt, rt.alloc(), 9_800, 200, (210, 213))?;
    hold_carbon(&rt, rt.alloc(), 0, 10_000, (0, 1))?;
    hold_carbon(&rt, rt.alloc(), 10_000, 0, (0, 1))?;
    Ok(())
}

// Holds the ends of the enclosure of carbon's counts against these.
fn hold_carbon(
    rt: &impl Abort,
    alloc: Global,
    light: u32,
    heavy: u32,
    ends: (u64, u64),
) -> Result<(), Fail>
    requires { light + heavy ≤ MAX_ATOMS }
{
    let (mode, _) = mode_of(alloc, &CARBON, light + heavy)?;
    let enclosure = enclose(alloc, &CARBON, &mode, &[light, heavy])?;
    assert_eq!(rt; (enclosure.lo, enclosure.hi), ends);
    Ok(())
}

#[test]
fn sixteen_heaviest_weights_share_10000_atoms(rt: HostRuntime) -> Result<(), Fail> {
    let (mode, enclosure) = mode_of(rt.alloc(), &[1_000_000_000_000; 16], MAX_ATOMS)?;
    assert_eq!(rt; mode.counts(), [625; 16].as_slice());
    assert_eq!(rt; (enclosure.lo, enclosure.hi), (0, 38));
    Ok(())
}

#[test]
fn no_atoms_are_certain(rt: HostRuntime) -> Result<(), Fail> {
    let (mode, enclosure) = mode_of(rt.alloc(), &CARBON, 0)?;
    assert_eq!(rt; mode.counts(), [0, 0].as_slice());
    assert_eq!(rt; enclosure, Enclosure::certain());
    assert_eq!(rt; enclose(rt.alloc(), &CARBON, &mode, &[0, 0])?, enclosure);
    Ok(())
}

#[test]
fn exact_weights_are_enclosed_and_sum_to_their_total(rt: HostRuntime) -> Result<(), Fail> {
    hold_against_exact(&rt, rt.alloc(), &[5, 3, 2], 4, 10_000)?;
    hold_against_exact(&rt, rt.alloc(), &[1, 1, 1], 5, 243)?;
    hold_against_exact(&rt, rt.alloc(), &[1, 97, 2], 3, 1_000_000)?;
    hold_against_exact(&rt, rt.alloc(), &[7, 7, 3], 0, 1)?;
    Ok(())
}

// Holds the enclosure of each counts of three isotopes against the exact weight, and the weights of
// all against the total.
fn hold_against_exact(
    rt: &impl Abort,
    alloc: Global,
    weights: &[u64],
    atoms: u32,
    total: u128,
) -> Result<(), Fail>
    requires weights_in_range { IsWeights weights.now }
    requires some { 1 ≤ sum weights.now }
    requires three { length weights.now ≡ 3 }
    requires few_atoms { atoms ≤ 10 }
    requires whole { total ≡ total_of weights.now atoms }
    requires small { total ≤ 10 ^ 6 }
{
    let unit = u128::from(CERTAINTY);
    let (mode, _) = mode_of(alloc, weights, atoms)?;
    let mut sum: u128 = 0;
    for first in 0..=atoms {
        for second in 0..=atoms - first {
            let mut counts = [first, second, atoms - first - second];
            let enclosure = enclose(alloc, weights, &mode, &counts)?;
            let weight = exact_weight(weights, atoms, &mut counts);
            assert!(rt; weight <= total);
            assert!(rt;
                u128::from(enclosure.lo) * total <= unit * weight,
                "{counts:?} {enclosure:?}"
            );
            assert!(rt;
                unit * weight <= u128::from(enclosure.hi) * total,
                "{counts:?} {enclosure:?}"
            );
            sum = sum.wrapping_add(weight);
        }
    }
    assert_eq!(rt; sum, total);
    Ok(())
}
