//! Each public call on its happy path, the limit, and tokens. Expected values are computed by a program of its own in
//! Python that lists all counts.

use super::*;
use isotopologue_list::IsotopologueList;
use isotopologue_sets::ElementAtoms;
use multinomial_bounds::MAX_ATOMS;
use std::alloc::Global;
use std::test::Fail;

const UNIT: u64 = 1_000_000_000_000_000_000;

/// An element of two isotopes of equal weight.
const EQUAL: [u64; 2] = [500_000_000_000, 500_000_000_000];

/// Sulfur, its weights in 10^-12.
const SULFUR: [u64; 4] = [949_900_000_000, 7_500_000_000, 42_500_000_000, 100_000_000];

#[test]
fn two_isotopes_of_equal_weight_are_listed_above_an_eighth(rt: HostRuntime) -> Result<(), Fail> {
    let none = Others {
        before: UNIT,
        after: &[],
    };
    let mut list = SubIsos::start(rt.alloc(), &EQUAL, 2, none)?;
    assert_eq!(rt; list.items().len(), 0);
    assert_eq!(rt; list.next(), None);
    list.lower_to(UNIT / 8)?;
    assert_eq!(rt; list.threshold(), UNIT / 8);
    let mut counts = Vec::new(rt.alloc());
    let mut bounds = Vec::new(rt.alloc());
    for item in list.items() {
        counts.extend_from_slice(item.counts())?;
        bounds.push((item.enclosure().lo, item.enclosure().hi))?;
    }
    assert_eq!(rt; counts.as_slice(), [1, 1, 0, 2, 2, 0].as_slice());
    assert_eq!(rt;
        bounds.as_slice(),
        [
            (UNIT / 2, UNIT / 2),
            (UNIT / 4, UNIT / 4),
            (UNIT / 4, UNIT / 4)
        ]
        .as_slice()
    );
    Ok(())
}

/// The list of two atoms of two equal isotopes above an eighth, of which so many items were given.
fn equal_atoms_after(alloc: Global, token: u64) -> Result<SubIsos, SubFault> {
    let none = Others {
        before: UNIT,
        after: &[],
    };
    SubIsos::resume(alloc, &EQUAL, 2, UNIT / 8, none, token)
}

/// Whether a list gives exactly the places from one on, up to an end, with each place as the token before it.
fn gives_places(list: &mut SubIsos, from: u64, end: u64) -> bool {
    for place in from..end {
        if list.token() != place || list.next() != Some(place as usize) {
            return false;
        }
    }
    list.token() == end && list.next().is_none()
}

#[test]
fn a_token_gives_exactly_the_rest(rt: HostRuntime) -> Result<(), Fail> {
    let mut list = equal_atoms_after(rt.alloc(), 0)?;
    assert_eq!(rt; list.items().len(), 3);
    for given in 0..=3u64 {
        assert_eq!(rt; list.token(), given);
        let mut rest = equal_atoms_after(rt.alloc(), list.token())?;
        assert!(rt; gives_places(&mut rest, given, 3));
        assert_eq!(rt; list.next().is_some(), given < 3);
    }
    let beyond = equal_atoms_after(rt.alloc(), 4);
    assert!(rt; matches!(beyond, Err(SubFault::NotInList)));
    Ok(())
}

#[test]
fn a_product_that_is_the_threshold_is_out(rt: HostRuntime) -> Result<(), Fail> {
    let halves = Others {
        before: UNIT / 2,
        after: &[UNIT / 2],
    };
    let mut list = SubIsos::start(rt.alloc(), &EQUAL, 2, halves)?;
    list.lower_to(UNIT / 8)?;
    assert_eq!(rt; list.items().len(), 0);
    list.lower_to(UNIT / 8 - 1)?;
    assert_eq!(rt; list.items().len(), 1);
    Ok(())
}

#[test]
fn a_lower_threshold_adds_behind_the_items(rt: HostRuntime) -> Result<(), Fail> {
    let others = Others {
        before: 300_000_000_000_000_000,
        after: &[500_000_000_000_000_000, 900_000_000_000_000_000],
    };
    let mut list = SubIsos::start(rt.alloc(), &SULFUR, 6, others)?;
    list.lower_to(1_000_000_000_000)?;
    assert_eq!(rt; list.items().len(), 16);
    assert_eq!(rt;
        list.items().last().map(|item| item.enclosure().lo),
        Some(8_250_849_618_785)
    );
    list.lower_to(100_000_000)?;
    assert_eq!(rt; list.items().len(), 40);
    assert_eq!(rt;
        list.items().last().map(|item| item.enclosure().lo),
        Some(1_466_817_709)
    );
    Ok(())
}

#[test]
fn a_list_begun_again_has_the_items_of_a_new_one(rt: HostRuntime) -> Result<(), Fail> {
    let none = Others {
        before: UNIT,
        after: &[],
    };
    let others = Others {
        before: 300_000_000_000_000_000,
        after: &[500_000_000_000_000_000, 900_000_000_000_000_000],
    };
    let mut list = SubIsos::resume(rt.alloc(), &SULFUR, 6, 1_000_000_000_000, none, 2)?;
    let grown = list.items().len();
    for (others, threshold, count) in [
        (others, 1_000_000_000_000, 16),
        (others, 100_000_000, 40),
        (none, 1_000_000_000_000, grown),
    ] {
        list.restart(others)?;
        assert_eq!(rt;
            (list.items().len(), list.token(), list.threshold()),
            (0, 0, UNIT)
        );
        list.lower_to(threshold)?;
        let fresh = SubIsos::resume(rt.alloc(), &SULFUR, 6, threshold, others, 0)?;
        assert_eq!(rt; list.items().len(), count);
        assert_eq!(rt; list.items().len(), fresh.items().len());
        for (item, same) in list.items().iter().zip(fresh.items()) {
            assert_eq!(rt; item.counts(), same.counts());
            assert_eq!(rt; item.enclosure(), same.enclosure());
        }
    }
    assert!(rt; list.kept_items() >= 40);
    assert_eq!(rt; (list.weights(), list.atoms()), (SULFUR.as_slice(), 6));
    assert_eq!(rt;
        list.items().first().map(|item| item.enclosure()),
        Some(list.mode())
    );
    Ok(())
}

#[test]
fn as_many_items_as_are_kept_are_listed_and_more_are_refused(rt: HostRuntime) -> Result<(), Fail> {
    let none = Others {
        before: UNIT,
        after: &[],
    };
    let weights = [1, 1, 1];
    let mut list = SubIsos::start(rt.alloc(), &weights, 1_446, none)?;
    list.lower_to(0)?;
    assert_eq!(rt; list.items().len(), 1_047_628);
    let mut wide = SubIsos::start(rt.alloc(), &weights, 1_447, none)?;
    wide.lower_to(UNIT / 1_000_000)?;
    let listed = wide.items().len();
    assert_eq!(rt; wide.lower_to(0), Err(SubFault::TooMany));
    assert_eq!(rt; wide.threshold(), UNIT / 1_000_000);
    assert_eq!(rt; wide.items().len(), listed);
    let resumed = SubIsos::resume(rt.alloc(), &weights, 1_447, 0, none, 2_000_000);
    assert!(rt; matches!(resumed, Err(SubFault::TooMany)));
    Ok(())
}

#[test]
fn the_list_of_all_counts_has_the_same_above_a_threshold(rt: HostRuntime) -> Result<(), Fail> {
    let threshold = 1_000_000_000_000;
    let elements = vec![in rt.alloc(); ElementAtoms::of(rt.alloc(), &SULFUR, 6)?]?;
    let all = IsotopologueList::of(rt.alloc(), &elements)?;
    let count = all.enclosures().iter().filter(|e| e.hi > threshold).count();
    let mut total = 0u128;
    for enclosure in all.enclosures() {
        if enclosure.hi > threshold {
            total = total.saturating_add(u128::from(enclosure.lo));
        }
    }
    let none = Others {
        before: UNIT,
        after: &[],
    };
    let list = SubIsos::resume(rt.alloc(), &SULFUR, 6, threshold, none, 0)?;
    let mut listed = 0u128;
    for item in list.items() {
        listed = listed.saturating_add(u128::from(item.enclosure().lo));
    }
    assert_eq!(rt; list.items().len(), count);
    assert_eq!(rt; listed, total);
    Ok(())
}

#[test]
fn no_atoms_and_the_most_atoms_of_the_most_isotopes(rt: HostRuntime) -> Result<(), Fail> {
    let none = Others {
        before: UNIT,
        after: &[],
    };
    let mut empty = SubIsos::start(rt.alloc(), &[1; MAX_ISOTOPES], 0, none)?;
    empty.lower_to(UNIT - 1)?;
    assert_eq!(rt; empty.items().len(), 1);
    assert_eq!(rt;
        empty.items().first().map(|item| item.enclosure().lo),
        Some(UNIT)
    );
    let mut greatest = SubIsos::start(
        rt.alloc(),
        &[1_000_000_000_000; MAX_ISOTOPES],
        MAX_ATOMS,
        none,
    )?;
    assert_eq!(rt; greatest.lower_to(0), Err(SubFault::TooMany));
    assert_eq!(rt; greatest.token(), 0);
    Ok(())
}
