//! Values that come from outside: worked examples of covers, others computed from the definitions with whole numbers
//! of any size, and that each call succeeds with ample memory.
ghost use Rattle.std.specs.Prelude.{◌≡◌, IsTrue, is_some};
ghost use Rattle.formula_text.specs.Masses.{HasItems, item_isotope};

use super::*;
use element_table::{Symbol, Table, read_table};
use formula_text::{Formula, Item, read_formula};
use std::alloc::Global;
use std::process::Abort;
use std::test::Fail;

/// Elements of even isotopes, one with an isotope that doesn't occur, and one of many isotopes.
const EVEN: &[u8] = b"symbol,number,mass,abundance,valence
e-,0,0.000548579909,0,0
V,60,60,0.1,1
V,61,61,0.1,1
V,62,62,0.1,1
V,63,63,0.1,1
V,64,64,0.1,1
V,65,65,0.1,1
W,10,10,0.5,1
W,11,11,0,1
W,12,12,0.5,1
X,10,10,0.5,1
X,11,11,0.5,1
Y,20,20,0.3,2
Y,21,21,0.3,2
Y,22,22,0.3,2
Z,30,30,0.05,1
Z,31,31,0.05,1
Z,32,32,0.05,1
Z,33,33,0.05,1
Z,34,34,0.05,1
Z,35,35,0.05,1
Z,36,36,0.05,1
Z,37,37,0.05,1
Z,38,38,0.05,1
Z,39,39,0.05,1
Z,40,40,0.05,1
Z,41,41,0.05,1
Z,42,42,0.05,1
Z,43,43,0.05,1
Z,44,44,0.05,1
Z,45,45,0.05,1
";

const ELEMENTS: &[u8] = b"symbol,number,mass,abundance,valence
e-,0,0.000548579909,0,0
C,12,12,0.9893,4
C,13,13.00335483507,0.0107,4
C,14,14.0032419884,0,4
O,16,15.99491461957,0.99757,2
O,17,16.9991317565,0.00038,2
O,18,17.99915961286,0.00205,2
H,1,1.00782503223,0.999885,1
H,2,2.01410177812,0.000115,1
N,14,14.00307400443,0.99636,3
N,15,15.00010889888,0.00364,3
S,32,31.9720711744,0.9499,6
S,33,32.9714589098,0.0075,6
S,34,33.967867004,0.0425,6
S,36,35.96708071,0.0001,6
P,31,30.97376199842,1,5
Na,23,22.989769282,1,1
";

const HALF: u64 = 500_000_000_000_000_000;

const MOST: u64 = 999_999_000_000_000_000;

const CERTAIN: u64 = 1_000_000_000_000_000_000;

/// Whether the table has the item's isotope.
fn has_item(table: &Table, item: &Item) -> bool
    ensures { result ≡ is_some (item_isotope table.now item.now) }
{
    match table.element(item.symbol) {
        Some(element) => item.label == 0 || element.isotope(item.label).is_some(),
        None => false,
    }
}

/// Whether the table has each item.
fn has_items(table: &Table, formula: &Formula) -> bool
    ensures { IsTrue result → HasItems table.now formula.now }
{
    formula
        .items()
        .iter()
        .all(|(item, _)| has_item(table, item))
}

/// The cover of a formula of a table.
fn cover(
    rt: &impl Abort,
    alloc: Global,
    table: &[u8],
    formula: &Formula,
    coverage: u64,
) -> Result<Cover, Fail> {
    let table = read_table(alloc, table)?;
    assert!(rt; has_items(&table, formula));
    assert!(rt; coverage >= 1);
    assert!(rt; coverage <= MOST);
    Ok(cover_of(alloc, &table, formula, coverage)?)
}

/// The cover of a formula's text.
fn cover_of_text(
    rt: &impl Abort,
    alloc: Global,
    table: &[u8],
    text: &[u8],
    coverage: u64,
) -> Result<Cover, Fail> {
    let read = read_table(alloc, table)?;
    let formula = read_formula(alloc, &read, text)?;
    cover(rt, alloc, table, &formula, coverage)
}

/// A formula with six labelled atoms of carbon, and so many of oxygen without a label.
fn labelled(rt: &impl Abort, alloc: Global, oxygen: u32) -> Result<Formula, Fail> {
    let carbon = Symbol::of(b"C").expect(rt, "a symbol");
    let other = Symbol::of(b"O").expect(rt, "a symbol");
    let atoms = [
        (
            Item {
                symbol: carbon,
                label: 13,
            },
            6,
        ),
        (
            Item {
                symbol: other,
                label: 0,
            },
            oxygen,
        ),
    ];
    Ok(Formula::of(alloc, &atoms)?.expect(rt, "a formula"))
}

/// What a cover is to be: the text, the mass and the bounds of each member of the layer.
#[derive(Clone, Copy)]
struct Expected<'a> {
    threshold: u64,
    size: u64,
    bound: u64,
    layer: &'a [(&'a [u8], u64, u64, u64)],
}

fn expect(rt: &impl Abort, cover: &Cover, coverage: u64, expected: Expected) {
    assert_eq!(rt; cover.coverage(), coverage);
    assert_eq!(rt; cover.threshold(), expected.threshold);
    assert_eq!(rt; cover.size(), expected.size);
    assert_eq!(rt; cover.bound(), expected.bound);
    assert_eq!(rt; cover.layer().len(), expected.layer.len());
    for (member, (text, mass, lo, hi)) in cover.layer().iter().zip(expected.layer) {
        assert_eq!(rt; member.text(), *text);
        assert_eq!(rt; member.mass(), *mass);
        assert_eq!(rt; member.enclosure().lo, *lo);
        assert_eq!(rt; member.enclosure().hi, *hi);
    }
}

const QUARTER: u64 = 250_000_000_000_000_000;

const PAIRS: &[(&[u8], u64, u64, u64)] = &[
    (b"[10X][11X]", 21_000_000_000_000, HALF, HALF),
    (b"[11X]2", 22_000_000_000_000, QUARTER, QUARTER),
    (b"[10X]2", 20_000_000_000_000, QUARTER, QUARTER),
];

const TRIPLES: &[(&[u8], u64, u64, u64)] = &[
    (
        b"[10X][11X]2",
        32_000_000_000_000,
        375_000_000_000_000_000,
        375_000_000_000_000_000,
    ),
    (
        b"[10X]2[11X]",
        31_000_000_000_000,
        375_000_000_000_000_000,
        375_000_000_000_000_000,
    ),
    (
        b"[11X]3",
        33_000_000_000_000,
        125_000_000_000_000_000,
        125_000_000_000_000_000,
    ),
    (
        b"[10X]3",
        30_000_000_000_000,
        125_000_000_000_000_000,
        125_000_000_000_000_000,
    ),
];

const THIRDS: &[(&[u8], u64, u64, u64)] = &[
    (
        b"[22Y]",
        22_000_000_000_000,
        333_333_333_333_333_333,
        333_333_333_333_333_334,
    ),
    (
        b"[21Y]",
        21_000_000_000_000,
        333_333_333_333_333_333,
        333_333_333_333_333_334,
    ),
    (
        b"[20Y]",
        20_000_000_000_000,
        333_333_333_333_333_333,
        333_333_333_333_333_334,
    ),
];

const SIXTHS: &[(&[u8], u64, u64, u64)] = &[
    (
        b"[65V]",
        65_000_000_000_000,
        166_666_666_666_666_666,
        166_666_666_666_666_667,
    ),
    (
        b"[64V]",
        64_000_000_000_000,
        166_666_666_666_666_666,
        166_666_666_666_666_667,
    ),
    (
        b"[63V]",
        63_000_000_000_000,
        166_666_666_666_666_666,
        166_666_666_666_666_667,
    ),
    (
        b"[62V]",
        62_000_000_000_000,
        166_666_666_666_666_666,
        166_666_666_666_666_667,
    ),
    (
        b"[61V]",
        61_000_000_000_000,
        166_666_666_666_666_666,
        166_666_666_666_666_667,
    ),
    (
        b"[60V]",
        60_000_000_000_000,
        166_666_666_666_666_666,
        166_666_666_666_666_667,
    ),
];

const DIOXIDES: &[(&[u8], u64, u64, u64)] = &[
    (
        b"[12C][16O]2",
        43_989_829_239_140,
        984_497_843_717_570_000,
        984_497_843_717_570_000,
    ),
    (
        b"[13C][16O]2",
        44_993_184_074_210,
        10_648_061_182_430_000,
        10_648_061_182_430_000,
    ),
    (
        b"[12C][16O][18O]",
        45_994_074_232_430,
        4_046_273_604_100_000,
        4_046_273_604_100_000,
    ),
    (
        b"[12C][16O][17O]",
        44_994_046_376_070,
        750_040_960_760_000,
        750_040_960_760_000,
    ),
    (
        b"[13C][16O][18O]",
        46_997_429_067_500,
        43_763_395_900_000,
        43_763_395_900_000,
    ),
    (
        b"[13C][16O][17O]",
        45_997_401_211_140,
        8_112_239_240_000,
        8_112_239_240_000,
    ),
    (
        b"[12C][18O]2",
        47_998_319_225_720,
        4_157_533_250_000,
        4_157_533_250_000,
    ),
    (
        b"[12C][17O][18O]",
        46_998_291_369_360,
        1_541_329_400_000,
        1_541_329_400_000,
    ),
];

#[test]
fn covers_are_those_of_the_worked_rows(rt: HostRuntime) -> Result<(), Fail> {
    let pair = Expected {
        threshold: QUARTER,
        size: 1,
        bound: 1,
        layer: &PAIRS[..1],
    };
    let pairs = Expected {
        threshold: QUARTER / 2,
        size: 3,
        bound: 3,
        layer: PAIRS,
    };
    let rows: &[(&[u8], &[u8], u64, Expected)] = &[
        (EVEN, b"X2", 1, pair),
        (EVEN, b"X2", HALF, pair),
        (
            EVEN,
            b"X2",
            750_000_000_000_000_000,
            Expected {
                threshold: QUARTER / 2,
                size: 2,
                bound: 2,
                layer: PAIRS,
            },
        ),
        (EVEN, b"X2", MOST, pairs),
        (
            EVEN,
            b"X3",
            750_000_000_000_000_001,
            Expected {
                threshold: 93_750_000_000_000_000,
                size: 3,
                bound: 3,
                layer: TRIPLES,
            },
        ),
        (
            EVEN,
            b"Y",
            666_666_666_666_666_667,
            Expected {
                threshold: 166_666_666_666_666_667,
                size: 3,
                bound: 2,
                layer: THIRDS,
            },
        ),
        (
            EVEN,
            b"V",
            HALF,
            Expected {
                threshold: 83_333_333_333_333_333,
                size: 4,
                bound: 3,
                layer: SIXTHS,
            },
        ),
        (
            ELEMENTS,
            b"CO2",
            990_000_000_000_000_000,
            Expected {
                threshold: 7_691_389_404_043_515,
                size: 2,
                bound: 2,
                layer: &DIOXIDES[..2],
            },
        ),
        (
            ELEMENTS,
            b"CO2",
            MOST,
            Expected {
                threshold: 938_890_308_110,
                size: 8,
                bound: 8,
                layer: DIOXIDES,
            },
        ),
    ];
    for (table, text, coverage, expected) in rows {
        let cover = cover_of_text(&rt, rt.alloc(), table, text, *coverage)?;
        expect(&rt, &cover, *coverage, *expected);
    }
    Ok(())
}

// Without the isotope of abundance 0 there are three isotopologues, with it there were six.
#[test]
fn isotopes_that_dont_occur_take_no_part(rt: HostRuntime) -> Result<(), Fail> {
    let cover = cover_of_text(&rt, rt.alloc(), EVEN, b"W2", HALF)?;
    let middle = Expected {
        threshold: QUARTER,
        size: 1,
        bound: 1,
        layer: &[(b"[10W][12W]", 22_000_000_000_000, HALF, HALF)],
    };
    expect(&rt, &cover, HALF, middle);
    Ok(())
}

#[test]
fn labelled_atoms_are_in_the_mass_and_not_in_the_text(rt: HostRuntime) -> Result<(), Fail> {
    let alloc = rt.alloc();
    let all = labelled(&rt, alloc, 0)?;
    let alone = Expected {
        threshold: HALF,
        size: 1,
        bound: 1,
        layer: &[(b"-", 78_020_129_010_420, CERTAIN, CERTAIN)],
    };
    for coverage in [HALF, MOST] {
        let found = cover(&rt, alloc, ELEMENTS, &all, coverage)?;
        assert_eq!(rt; found.formula().items(), all.items());
        expect(&rt, &found, coverage, alone);
    }
    let oxide = labelled(&rt, alloc, 1)?;
    let light = Expected {
        threshold: 498_785_000_000_000_000,
        size: 1,
        bound: 1,
        layer: &[(
            b"[16O]",
            94_015_043_629_990,
            997_570_000_000_000_000,
            997_570_000_000_000_000,
        )],
    };
    let found = cover(&rt, alloc, ELEMENTS, &oxide, 990_000_000_000_000_000)?;
    expect(&rt, &found, 990_000_000_000_000_000, light);
    Ok(())
}

// Texts and bounds of the first member and the last.
#[test]
fn elements_of_10_000_atoms_have_covers(rt: HostRuntime) -> Result<(), Fail> {
    let alloc = rt.alloc();
    let carbon = cover_of_text(&rt, alloc, ELEMENTS, b"C10000", 990_000_000_000_000_000)?;
    assert_eq!(rt; carbon.threshold(), 1_210_781_900_909_097);
    assert_eq!(rt; carbon.size(), 53);
    assert_eq!(rt; carbon.bound(), 53);
    assert_eq!(rt; carbon.layer().len(), 54);
    let first = &carbon.layer()[0];
    assert_eq!(rt; first.text(), b"[12C]9893[13C]107".as_slice());
    assert_eq!(rt; first.counts(), [9893, 107].as_slice());
    assert_eq!(rt; first.enclosure().lo, 38_745_020_829_084_513);
    assert_eq!(rt; first.enclosure().hi, 38_745_020_829_091_132);
    let last = &carbon.layer()[53];
    assert_eq!(rt; last.text(), b"[12C]9919[13C]81".as_slice());
    assert_eq!(rt; last.enclosure().lo, 1_362_400_439_729_138);
    assert_eq!(rt; last.enclosure().hi, 1_362_400_439_729_376);

    let salt = cover_of_text(&rt, alloc, ELEMENTS, b"Na10000P10000", MOST)?;
    let one = Expected {
        threshold: HALF,
        size: 1,
        bound: 1,
        layer: &[(
            b"[23Na]10000[31P]10000",
            539_635_312_804_200_000,
            CERTAIN,
            CERTAIN,
        )],
    };
    expect(&rt, &salt, MOST, one);
    Ok(())
}

#[test]
fn members_get_their_texts_one_at_a_time(rt: HostRuntime) -> Result<(), Fail> {
    let alloc = rt.alloc();
    let table = read_table(alloc, ELEMENTS)?;
    let formula = read_formula(alloc, &table, b"CO2")?;
    assert!(rt; has_items(&table, &formula));
    let found = numbered_cover_of(alloc, &table, &formula, 990_000_000_000_000_000)?;
    assert_eq!(rt; (found.size(), found.bound(), found.len()), (2, 2, 2));
    assert_eq!(rt; found.threshold(), 7_691_389_404_043_515);
    assert_eq!(rt; found.coverage(), 990_000_000_000_000_000);
    assert_eq!(rt; found.formula().items(), formula.items());
    assert!(rt; found.len() > 1);
    let (text, mass, lo, hi) = DIOXIDES[1];
    let mut last = Vec::new(alloc);
    found.push_text(1, &mut last)?;
    assert_eq!(rt; last.as_slice(), text);
    assert_eq!(rt; found.mass(1), mass);
    assert_eq!(rt; (found.enclosure(1).lo, found.enclosure(1).hi), (lo, hi));
    Ok(())
}

// Human insulin has more than 10^12 isotopologues. IsoSpec's cover has 419 members, too.
#[test]
fn covers_of_large_formulas_are_found(rt: HostRuntime) -> Result<(), Fail> {
    let found = cover_of_text(
        &rt,
        rt.alloc(),
        ELEMENTS,
        b"C257H383N65O77S6",
        990_000_000_000_000_000,
    )?;
    assert_eq!(rt; found.threshold(), 27_216_323_985_307);
    assert_eq!(rt; (found.size(), found.bound()), (419, 419));
    assert_eq!(rt; found.layer().len(), 494);
    let first = &found.layer()[0];
    assert_eq!(rt;
        first.text(),
        b"[12C]255[13C]2[1H]383[14N]65[16O]77[32S]6".as_slice()
    );
    assert_eq!(rt; first.enclosure().lo, 111_478_063_043_821_334);
    assert_eq!(rt; first.enclosure().hi, 111_478_063_043_821_477);
    let last = &found.layer()[418];
    assert_eq!(rt;
        last.text(),
        b"[12C]255[13C]2[1H]382[2H][14N]65[16O]76[17O][32S]5[34S]".as_slice()
    );
    assert_eq!(rt; last.enclosure().lo, 38_665_996_710_305);
    Ok(())
}

// The first layer of 100 atoms of sixteen equal isotopes has 11,240,208 members.
#[test]
fn layers_of_too_many_members_are_refused_with_their_threshold(
    rt: HostRuntime,
) -> Result<(), Fail> {
    let alloc = rt.alloc();
    let table = read_table(alloc, EVEN)?;
    let formula = read_formula(alloc, &table, b"Z100")?;
    assert!(rt; has_items(&table, &formula));
    let Err(CoverFault::TooMany { threshold }) = cover_of(alloc, &table, &formula, HALF) else {
        rt.abort()
    };
    assert_eq!(rt; threshold, 1_442_992);
    Ok(())
}
