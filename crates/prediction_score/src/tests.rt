//! Scores of known answers, computed from the rule in exact numbers.

use super::*;
use mass_scaling::Tolerance;
use peak_text::Peaks;
use std::test::Fail;

const DALTON: i128 = 1_000_000_000_000;

const WHOLE: u64 = MAX_LO_TOTAL;

#[test]
fn a_member_between_two_peaks_goes_to_the_first(rt: HostRuntime) -> Result<(), Fail> {
    let alloc = rt.alloc();
    let members = [Predicted {
        mass: 10 * DALTON,
        lo: WHOLE,
    }];
    let one = 1_000_000_000_000;
    for (pairs, place, expected) in [
        (
            [(9_500_000_000_000, 1), (10_500_000_000_000, 1)].as_slice(),
            Some(0),
            0,
        ),
        (
            &[(10_500_000_000_000, 1), (9_500_000_000_000, 1)],
            Some(0),
            0,
        ),
        (
            &[(8_000_000_000_000, 1), (12_000_000_000_000, 1)],
            None,
            WHOLE,
        ),
        (
            &[(9_000_000_000_000, 1), (9_000_000_000_000, 1)],
            Some(0),
            0,
        ),
        (
            &[(11_000_000_000_001, 1), (8_999_999_999_999, 1)],
            None,
            WHOLE,
        ),
        (
            &[(9_100_000_000_000, 1), (10_899_999_999_999, 0)],
            Some(1),
            WHOLE,
        ),
        (&[], None, WHOLE),
    ] {
        let peaks = Peaks::of(alloc, pairs)?.expect(&rt, "peaks");
        let order = PeakOrder::of(alloc, &peaks)?;
        assert_eq!(rt;
            order.peak_of(10 * DALTON, 1, Tolerance::Da { units: one }),
            place
        );
        assert_eq!(rt;
            order.score(alloc, &members, 1, Tolerance::Da { units: one })?,
            expected
        );
        assert_eq!(rt;
            score(alloc, &members, 1, &peaks, Tolerance::Da { units: one })?,
            expected
        );
    }
    Ok(())
}

#[test]
fn observed_shares_are_rounded_down(rt: HostRuntime) -> Result<(), Fail> {
    let alloc = rt.alloc();
    // Three peaks of one intensity share 10 units, 3 each; the fourth peak gets no member.
    let pairs = [
        (30 * 1_000_000_000_000, 7),
        (10 * 1_000_000_000_000, 7),
        (20 * 1_000_000_000_000, 7),
        (40 * 1_000_000_000_000, 1_000_000_000_000_000_000),
    ];
    let peaks = Peaks::of(alloc, &pairs)?.expect(&rt, "peaks");
    let order = PeakOrder::of(alloc, &peaks)?;
    let member = |dalton: i128, lo: u64| Predicted {
        mass: dalton * DALTON,
        lo,
    };
    for (members, expected) in [
        // |4 - 3| + |4 - 3| + |2 - 3|, and two members at one peak count together.
        ([member(10, 4), member(20, 4), member(30, 2)].as_slice(), 3),
        (
            &[member(30, 1), member(10, 4), member(20, 4), member(30, 1)],
            3,
        ),
        // The members without a peak count whole: 5 and |10 - 5| + |0 - 5|.
        (&[member(10, 10), member(50, 5), member(20, 0)], 15),
        (&[], 0),
    ] {
        assert_eq!(rt;
            order.score(alloc, members, 1, Tolerance::Da { units: 1 })?,
            expected
        );
    }
    Ok(())
}

#[test]
fn many_members_are_held_against_the_peaks_as_a_column(rt: HostRuntime) -> Result<(), Fail> {
    let alloc = rt.alloc();
    let pairs = [(10 * 1_000_000_000_000, 1), (20 * 1_000_000_000_000, 3)];
    let peaks = Peaks::of(alloc, &pairs)?.expect(&rt, "peaks");
    let tolerance = Tolerance::Da { units: 1 };
    let mass = 10 * DALTON;
    let near = [Predicted { mass, lo: 2 }; 40];
    assert_eq!(rt; score(alloc, &near, 1, &peaks, tolerance)?, 0);
    assert_eq!(rt; score(alloc, &near, 3, &peaks, tolerance)?, 80);
    Ok(())
}

#[test]
fn peaks_without_intensity_have_no_share(rt: HostRuntime) -> Result<(), Fail> {
    let alloc = rt.alloc();
    let peaks = Peaks::of(alloc, &[(5 * 1_000_000_000_000, 0)])?.expect(&rt, "a peak");
    let members = [Predicted {
        mass: 10 * DALTON,
        lo: 7,
    }];
    assert_eq!(rt;
        score(alloc, &members, 2, &peaks, Tolerance::Da { units: 0 })?,
        7
    );
    assert_eq!(rt;
        score(alloc, &members, 1, &peaks, Tolerance::Da { units: 0 })?,
        7
    );
    Ok(())
}

#[test]
fn the_largest_numbers_are_scored(rt: HostRuntime) -> Result<(), Fail> {
    let alloc = rt.alloc();
    let most = 1_000_000_000_000_000_000;
    let mut pairs = Vec::new(alloc);
    for place in 0..10_000 {
        pairs.push((20_000_000_000_000_000 - place, most))?;
    }
    let peaks = Peaks::of(alloc, &pairs)?.expect(&rt, "peaks");
    let order = PeakOrder::of(alloc, &peaks)?;
    let mass = 600_000_000_000_000_000;
    let members = [
        Predicted {
            mass,
            lo: WHOLE - 1,
        },
        Predicted {
            mass: mass - 30,
            lo: 1,
        },
        Predicted {
            mass: 9_000_000_000_000_000_000,
            lo: 0,
        },
    ];
    // Half of the total is the share of each of two peaks.
    let found = order.score(alloc, &members, 30, Tolerance::Da { units: 0 })?;
    assert_eq!(rt; found, WHOLE - 2);
    Ok(())
}
