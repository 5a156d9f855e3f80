//! Enumerations held against lists that were filtered from whole boxes, and their tokens.
ghost use Rattle.std.specs.Prelude.{◌≡◌, ◌<◌, ◌≤◌, ℕ, length, IfOk};
ghost use Rattle.mass_scaling.specs.Masses.{AreMasses};

mod plain_search;

use super::*;
use outside_ports::Steps;
use std::alloc::{AllocError, Global};
use std::marker::Brand;
use std::sync::ledger::{Blank, Ledger};
use std::test::Fail;

/// The masses of oxygen-16, carbon-12 and hydrogen-1.
const OXYGEN: u64 = 15_994_914_619_570;

const CARBON: u64 = 12_000_000_000_000;

const HYDROGEN: u64 = 1_007_825_032_230;

/// 0 to 2 oxygens, 0 to 3 carbons and 1 to 8 hydrogens.
const SMALL_BOX: [Limit; 3] = [
    Limit { low: 0, high: 2 },
    Limit { low: 0, high: 3 },
    Limit { low: 1, high: 8 },
];

fn oxygen_carbon_hydrogen(alloc: Global) -> Result<Tables, ScaleFault>
    ensures { IfOk result (λ t. length t ≡ 3) }
{
    Tables::of(alloc, &[OXYGEN, CARBON, HYDROGEN])
}

/// Two symbols B and A of 10.00001 and 10 Da.
fn near_ten(alloc: Global) -> Result<Tables, ScaleFault>
    ensures { IfOk result (λ t. length t ≡ 2) }
{
    Tables::of(alloc, &[10_000_010_000_000, 10_000_000_000_000])
}

fn of_one_mass(alloc: Global, mass: u64) -> Result<Tables, ScaleFault>
    requires lower { 500000000000 ≤ mass }
    requires upper { mass ≤ 1000000000000000000 }
{
    Tables::of(alloc, &[mass])
}

/// The counts of all lists that are left, one list after the other.
fn gather_with<L: Ledger>(
    alloc: Global,
    decomps: &mut Decomps<'_>,
    symbols: usize,
    blank: Blank,
) -> Result<Vec<u32>, AllocError>
    requires name { blank.name ≡ L.name }
    requires parts { blank.parts ≡ L.parts }
    requires some { 0 < blank.parts }
    requires one_each { length decomps.old.masses ≡ symbols }
    ensures { length decomps.new.masses ≡ symbols }
{
    let mut steps = Steps::<L>::new(blank);
    let mut out = Counts::zero(alloc, symbols)?;
    let mut lists = Vec::new(alloc);
    while decomps.next_into(&mut out, &mut steps) {
        lists.extend_from_slice(out.counts())?;
    }
    Ok(lists)
}

fn gather(alloc: Global, decomps: &mut Decomps<'_>, symbols: usize) -> Result<Vec<u32>, AllocError>
    requires { length decomps.old.masses ≡ symbols }
    ensures { length decomps.new.masses ≡ symbols }
{
    gather_with::<Brand>(alloc, decomps, symbols, Blank::new(1))
}

/// The counts of the next list, if there is one, and behind them those of the token.
fn give_with<L: Ledger>(
    alloc: Global,
    decomps: &mut Decomps<'_>,
    blank: Blank,
) -> Result<Vec<u32>, AllocError>
    requires name { blank.name ≡ L.name }
    requires parts { blank.parts ≡ L.parts }
    requires some { 0 < blank.parts }
    requires two { length decomps.old.masses ≡ 2 }
    ensures { length decomps.new.masses ≡ 2 }
{
    let mut steps = Steps::<L>::new(blank);
    let mut out = Counts::zero(alloc, 2)?;
    let mut given = Vec::new(alloc);
    if decomps.next_into(&mut out, &mut steps) {
        given.extend_from_slice(out.counts())?;
    }
    if let Some(token) = decomps.token()? {
        given.extend_from_slice(token.counts())?;
    }
    Ok(given)
}

fn give(alloc: Global, decomps: &mut Decomps<'_>) -> Result<Vec<u32>, AllocError>
    requires { length decomps.old.masses ≡ 2 }
    ensures { length decomps.new.masses ≡ 2 }
{
    give_with::<Brand>(alloc, decomps, Blank::new(1))
}

#[test]
fn glucose_is_found_by_its_mass(rt: HostRuntime) -> Result<(), Fail> {
    let alloc = rt.alloc();
    let tables = oxygen_carbon_hydrogen(alloc)?;
    let mass = 180_063_388_104_180;
    let mut decomps = Decomps::start(alloc, &tables, &UP_TO_MAX, Window { lo: mass, hi: mass })?;
    assert_eq!(rt;
        gather(alloc, &mut decomps, 3)?.as_slice(),
        [6, 6, 12].as_slice()
    );
    assert_eq!(rt; gather(alloc, &mut decomps, 3)?.as_slice(), [].as_slice());
    Ok(())
}

/// The counts of all lists of the small box whose mass is in the window: a filter of the whole box.
fn filtered(alloc: Global, window: Window) -> Result<Vec<u32>, AllocError> {
    let mut lists = Vec::new(alloc);
    for oxygens in 0..=2 {
        for carbons in 0..=3 {
            for hydrogens in 1..=8 {
                let mass = oxygens * OXYGEN + carbons * CARBON + hydrogens * HYDROGEN;
                if window.lo <= mass && mass <= window.hi {
                    lists.extend_from_slice(&[oxygens as u32, carbons as u32, hydrogens as u32])?;
                }
            }
        }
    }
    Ok(lists)
}

// The window goes from the mass of CH4 to that of H2O; the others between them are CH5 and OH.
#[test]
fn both_ends_of_the_window_are_given(rt: HostRuntime) -> Result<(), Fail> {
    let alloc = rt.alloc();
    let tables = oxygen_carbon_hydrogen(alloc)?;
    let window = Window {
        lo: 16_031_300_128_920,
        hi: 18_010_564_684_030,
    };
    let mut decomps = Decomps::start(alloc, &tables, &SMALL_BOX, window)?;
    let lists = gather(alloc, &mut decomps, 3)?;
    assert_eq!(rt;
        lists.as_slice(),
        [0, 1, 4, 0, 1, 5, 1, 0, 1, 1, 0, 2].as_slice()
    );
    assert_eq!(rt; lists.as_slice(), filtered(alloc, window)?.as_slice());
    let all = Window {
        lo: 1,
        hi: 1_000_000_000_000_000,
    };
    let mut decomps = Decomps::start(alloc, &tables, &SMALL_BOX, all)?;
    let lists = gather(alloc, &mut decomps, 3)?;
    assert_eq!(rt; lists.len(), 3 * 96);
    assert_eq!(rt; lists.as_slice(), filtered(alloc, all)?.as_slice());
    Ok(())
}

/// From 10 Da less 1 ppm to 10 Da more 1 ppm: A and B alone.
const AROUND_TEN: Window = Window {
    lo: 9_999_990_000_000,
    hi: 10_000_010_000_000,
};

const UP_TO_TWO: [Limit; 2] = [Limit { low: 0, high: 2 }; 2];

#[test]
fn the_token_is_none_and_then_the_list_given_last(rt: HostRuntime) -> Result<(), Fail> {
    let alloc = rt.alloc();
    let tables = near_ten(alloc)?;
    let mut decomps = Decomps::start(alloc, &tables, &UP_TO_TWO, AROUND_TEN)?;
    assert!(rt; decomps.token()?.is_none());
    assert_eq!(rt;
        give(alloc, &mut decomps)?.as_slice(),
        [0, 1, 0, 1].as_slice()
    );
    assert_eq!(rt;
        give(alloc, &mut decomps)?.as_slice(),
        [1, 0, 1, 0].as_slice()
    );
    assert_eq!(rt; give(alloc, &mut decomps)?.as_slice(), [1, 0].as_slice());
    Ok(())
}

// The token of zeros is that of the empty list, whose mass is in no window.
#[test]
fn an_enumeration_goes_on_after_its_token(rt: HostRuntime) -> Result<(), Fail> {
    let alloc = rt.alloc();
    let tables = near_ten(alloc)?;
    let cases = [
        ([0, 0], [0, 1, 1, 0].as_slice()),
        ([0, 1], [1, 0].as_slice()),
        ([0, 2], [1, 0].as_slice()),
        ([1, 0], [].as_slice()),
        ([2, 2], [].as_slice()),
    ];
    for (counts, wanted) in cases {
        let after = Counts::of(alloc, &counts)?;
        let mut decomps = Decomps::resume(alloc, &tables, &UP_TO_TWO, AROUND_TEN, &after)?;
        let token = decomps.token()?.ok_or("no token")?;
        assert_eq!(rt; token.counts(), counts.as_slice());
        assert_eq!(rt; gather(alloc, &mut decomps, 2)?.as_slice(), wanted);
    }
    Ok(())
}

#[test]
fn counts_outside_the_box_are_no_token(rt: HostRuntime) -> Result<(), Fail> {
    let alloc = rt.alloc();
    let tables = oxygen_carbon_hydrogen(alloc)?;
    let window = Window { lo: 1, hi: 1 };
    let outside = [
        [3, 0, 1].as_slice(),
        [0, 0, 9].as_slice(),
        [0, 1, 0].as_slice(),
        [0, 0].as_slice(),
        [0, 0, 1, 0].as_slice(),
        [].as_slice(),
    ];
    for counts in outside {
        let after = Counts::of(alloc, counts)?;
        let fault = Decomps::resume(alloc, &tables, &SMALL_BOX, window, &after).err();
        assert_eq!(rt; fault, Some(ResumeFault::NotInBox));
    }
    Ok(())
}

#[test]
fn an_alphabet_is_too_heavy_from_above_400_da(rt: HostRuntime) -> Result<(), Fail> {
    let alloc = rt.alloc();
    assert!(rt; of_one_mass(alloc, 400_000_000_000_000).is_ok());
    assert_eq!(rt;
        of_one_mass(alloc, 400_000_000_000_001).err(),
        Some(ScaleFault::BaseTooHeavy)
    );
    Ok(())
}

/// 0 to 10,000 atoms of each of three symbols.
const UP_TO_MAX: [Limit; 3] = [Limit {
    low: 0,
    high: MAX_COUNT,
}; 3];

// The windows go from m Da to m + 0.5 Da.
#[test]
fn the_walk_gives_what_the_plain_search_finds(rt: HostRuntime) -> Result<(), Fail> {
    let alloc = rt.alloc();
    let masses = [OXYGEN, CARBON, HYDROGEN];
    let tables = oxygen_carbon_hydrogen(alloc)?;
    for da in 1..=60u64 {
        let lo = da * 1_000_000_000_000;
        let window = Window {
            lo,
            hi: lo + 500_000_000_000,
        };
        let mut decomps = Decomps::start(alloc, &tables, &UP_TO_MAX, window)?;
        let walked = gather(alloc, &mut decomps, 3)?;
        let found = plain_search::lists_of(alloc, &masses, &UP_TO_MAX, window, 1_000)?;
        assert_eq!(rt; walked.as_slice(), found.as_slice(), "from {da} Da");
    }
    Ok(())
}

/// Eight symbols of 17, 16, down to 10 Da.
fn seventeen_to_ten(alloc: Global) -> Result<Tables, ScaleFault>
    ensures { IfOk result (λ t. length t ≡ 8) }
{
    let masses = [
        17_000_000_000_000,
        16_000_000_000_000,
        15_000_000_000_000,
        14_000_000_000_000,
        13_000_000_000_000,
        12_000_000_000_000,
        11_000_000_000_000,
        10_000_000_000_000,
    ];
    Tables::of(alloc, &masses)
}

// All scaled masses are multiples of 100,000 grains, and the mass is half a dalton off. A walk that prunes
// by mass alone meets more than 10^12 lists here.
#[test]
fn a_mass_that_no_scaled_masses_add_up_to_ends_at_once(rt: HostRuntime) -> Result<(), Fail> {
    let alloc = rt.alloc();
    let tables = seventeen_to_ten(alloc)?;
    let limits = [Limit {
        low: 0,
        high: MAX_COUNT,
    }; 8];
    let mass = 10_000_500_000_000_000;
    let mut decomps = Decomps::start(alloc, &tables, &limits, Window { lo: mass, hi: mass })?;
    assert_eq!(rt; gather(alloc, &mut decomps, 8)?.as_slice(), [].as_slice());
    Ok(())
}
