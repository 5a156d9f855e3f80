//! Tables of known sums, from the worked example of 5 and 3 up to oxygen, carbon and hydrogen.
ghost use Rattle.std.specs.Prelude.{◌≡◌, ◌^◌, ◌<◌, ◌≤◌, length};

use super::*;
use outside_ports::Steps;
use std::alloc::AllocError;
use std::marker::Brand;
use std::sync::ledger::{Blank, Ledger};

fn probe_with<L: Ledger>(
    residues: &Residues,
    level: usize,
    lo: u64,
    hi: u64,
    blank: Blank,
) -> Option<u64>
    requires name { blank.name ≡ L.name }
    requires parts { blank.parts ≡ L.parts }
    requires some { 0 < blank.parts }
    requires level { level ≤ length residues.now }
    requires ordered { lo ≤ hi }
    requires range { hi < 2 ^ 63 }
{
    let mut steps = Steps::<L>::new(blank);
    residues.first_in(level, lo, hi, &mut steps)
}

fn probe(residues: &Residues, level: usize, lo: u64, hi: u64) -> Option<u64>
    requires level { level ≤ length residues.now }
    requires ordered { lo ≤ hi }
    requires range { hi < 2 ^ 63 }
{
    probe_with::<Brand>(residues, level, lo, hi, Blank::new(1))
}

fn reaches_with<L: Ledger>(
    residues: &Residues,
    level: usize,
    lo: u64,
    hi: u64,
    blank: Blank,
) -> bool
    requires name { blank.name ≡ L.name }
    requires parts { blank.parts ≡ L.parts }
    requires some { 0 < blank.parts }
    requires level { level ≤ length residues.now }
    requires ordered { lo ≤ hi }
    requires range { hi < 2 ^ 63 }
{
    let mut steps = Steps::<L>::new(blank);
    residues.reaches_in(level, lo, hi, &mut steps)
}

fn reaches(residues: &Residues, level: usize, lo: u64, hi: u64) -> bool
    requires level { level ≤ length residues.now }
    requires ordered { lo ≤ hi }
    requires range { hi < 2 ^ 63 }
{
    reaches_with::<Brand>(residues, level, lo, hi, Blank::new(1))
}

#[test]
fn sums_of_5_and_3_are_reached(rt: HostRuntime) -> Result<(), AllocError> {
    let residues = Residues::build(rt.alloc(), &[5, 3])?;
    let reached = [
        (residues.reaches(2, 7), false),
        (residues.reaches(2, 8), true),
        (residues.reaches(1, 6), true),
        (residues.reaches(1, 5), false),
        (residues.reaches(0, 0), true),
        (residues.reaches(0, 3), false),
    ];
    for (place, (found, wanted)) in reached.iter().enumerate() {
        assert_eq!(rt; *found, *wanted, "case {place}");
    }
    let first = [
        (probe(&residues, 2, 4, 9), Some(5)),
        (probe(&residues, 2, 7, 7), None),
        (probe(&residues, 1, 4, 5), None),
        (probe(&residues, 1, 4, 9), Some(6)),
        (probe(&residues, 0, 0, 9), Some(0)),
        (probe(&residues, 0, 1, 9), None),
    ];
    for (place, (found, wanted)) in first.iter().enumerate() {
        assert_eq!(rt; *found, *wanted, "case {place}");
    }
    Ok(())
}

#[test]
fn sums_of_oxygen_carbon_and_hydrogen_are_found_in_wide_ranges(
    rt: HostRuntime,
) -> Result<(), AllocError> {
    let residues = Residues::build(rt.alloc(), &[1_599_491, 1_200_000, 100_782])?;
    let cases = [
        (
            probe(&residues, 3, 18_006_149, 18_006_438),
            Some(18_006_330),
        ),
        (probe(&residues, 3, 18_006_331, 18_006_438), None),
        (probe(&residues, 2, 1_200_001, 1_300_790), Some(1_209_384)),
        (probe(&residues, 1, 100_783, 201_563), None),
        (probe(&residues, 3, 924_437_083, 924_437_083), None),
    ];
    for (place, (found, wanted)) in cases.iter().enumerate() {
        assert_eq!(rt; *found, *wanted, "case {place}");
    }
    let ranges = [
        (reaches(&residues, 3, 18_006_149, 18_006_438), true),
        (reaches(&residues, 3, 18_006_331, 18_006_438), false),
        (reaches(&residues, 2, 1_200_001, 1_300_790), true),
        (reaches(&residues, 2, 1_209_384, 1_209_384), true),
        (reaches(&residues, 2, 1_200_001, 1_209_383), false),
        (reaches(&residues, 2, 1_200_001, 1_209_384), true),
        (reaches(&residues, 1, 100_783, 201_563), false),
        (reaches(&residues, 1, 100_783, 201_564), true),
        (reaches(&residues, 3, 924_437_083, 924_437_083), false),
        (reaches(&residues, 3, 924_400_000, 924_440_000), true),
        (reaches(&residues, 0, 0, 9), true),
        (reaches(&residues, 0, 1, 9), false),
    ];
    for (place, (found, wanted)) in ranges.iter().enumerate() {
        assert_eq!(rt; *found, *wanted, "range {place}");
    }
    assert!(rt; residues.reaches(3, 924_537_865));
    assert!(rt; !residues.reaches(3, 924_437_083));
    Ok(())
}

#[test]
fn masses_with_a_common_divisor_reach_its_multiples_alone(
    rt: HostRuntime,
) -> Result<(), AllocError> {
    let residues = Residues::build(rt.alloc(), &[9, 6, 4])?;
    let cases = [
        (probe(&residues, 2, 1, 3), None),
        (probe(&residues, 2, 5, 5), None),
        (probe(&residues, 2, 5, 7), Some(6)),
        (probe(&residues, 3, 11, 11), None),
        (probe(&residues, 3, 13, 15), Some(13)),
        (probe(&residues, 3, 11, 1 << 62), Some(12)),
    ];
    for (place, (found, wanted)) in cases.iter().enumerate() {
        assert_eq!(rt; *found, *wanted, "case {place}");
    }
    Ok(())
}
