//! What no clause says: that texts, masses and elements are made with ample memory, and that they are
//! those of the field.
ghost use Rattle.std.specs.Prelude.{◌≡◌, IsTrue, is_some};
ghost use Rattle.formula_text.specs.Masses.{HasItems, item_isotope};

use super::*;
use element_table::{Symbol, Table, read_table};
use formula_text::{Formula, Item, read_formula};
use std::alloc::Global;
use std::process::Abort;
use std::test::Fail;

const ELEMENTS: &[u8] = b"symbol,number,mass,abundance,valence
e-,0,0.000548579909,0,0
C,12,12,0.9893,4
C,13,13.00335483507,0.0107,4
C,14,14.0032419884,0,4
O,16,15.99491461957,0.99757,2
O,17,16.9991317565,0.00038,2
O,18,17.99915961286,0.00205,2
";

/// Whether the table has the item's isotope.
fn has_item(table: &Table, item: &Item) -> bool
    ensures { result ≡ is_some (item_isotope table.now item.now) }
{
    match table.element(item.symbol) {
        Some(element) => item.label == 0 || element.isotope(item.label).is_some(),
        None => false,
    }
}

/// Whether the table has each item.
fn has_items(table: &Table, formula: &Formula) -> bool
    ensures { IsTrue result → HasItems table.now formula.now }
{
    formula
        .items()
        .iter()
        .all(|(item, _)| has_item(table, item))
}

/// The text and the mass that the isotopologue of some counts is to have.
fn expect(
    rt: &impl Abort,
    alloc: Global,
    formula: &Formula,
    counts: &[u32],
    text: &[u8],
    mass: u64,
) -> Result<(), Fail> {
    let table = read_table(alloc, ELEMENTS)?;
    assert!(rt; has_items(&table, formula));
    assert!(rt; is_isotopologue(&table, formula, counts));
    let printed = isotopologue_text(alloc, &table, formula, counts)?;
    assert_eq!(rt; printed.as_slice(), text);
    assert_eq!(rt; isotopologue_mass(&table, formula, counts), mass);
    Ok(())
}

/// The mass that an isotopologue is to have among many, and by itself.
fn expect_mass(
    rt: &impl Abort,
    alloc: Global,
    formula: &Formula,
    counts: &[u32],
    mass: u64,
) -> Result<(), Fail> {
    let table = read_table(alloc, ELEMENTS)?;
    assert!(rt; has_items(&table, formula));
    assert!(rt; is_isotopologue(&table, formula, counts));
    assert!(rt; formula.atoms() <= 20_000);
    let masses = IsotopeMasses::of(alloc, &table, formula)?;
    assert_eq!(rt; masses.mass(counts), mass);
    assert_eq!(rt; isotopologue_mass(&table, formula, counts), mass);
    Ok(())
}

/// The formula that a text is read as.
fn formula(alloc: Global, text: &[u8]) -> Result<Formula, Fail> {
    let table = read_table(alloc, ELEMENTS)?;
    Ok(read_formula(alloc, &table, text)?)
}

/// A formula with two labelled atoms of carbon, and so many without a label.
fn labelled(rt: &impl Abort, alloc: Global, plain: u32) -> Result<Formula, Fail> {
    let symbol = Symbol::of(b"C").expect(rt, "a symbol");
    let parts = [
        (Item { symbol, label: 13 }, 2),
        (Item { symbol, label: 0 }, plain),
    ];
    Ok(Formula::of(alloc, &parts)?.expect(rt, "a formula"))
}

/// The text is to be that of the isotopologue of some counts, and of none where there are none.
fn expect_counts(
    rt: &impl Abort,
    alloc: Global,
    formula: &Formula,
    text: &[u8],
    counts: Option<&[u32]>,
) -> Result<(), Fail> {
    let table = read_table(alloc, ELEMENTS)?;
    assert!(rt; has_items(&table, formula));
    let read = isotopologue_of(alloc, &table, formula, text)?;
    match (read, counts) {
        (Some(read), Some(counts)) => assert_eq!(rt; read.as_slice(), counts),
        (read, counts) => assert!(rt; read.is_none() && counts.is_none()),
    }
    Ok(())
}

#[test]
fn isotopologues_have_texts_and_masses(rt: HostRuntime) -> Result<(), Fail> {
    let alloc = rt.alloc();
    let dioxide = formula(alloc, b"CO2")?;
    expect(
        &rt,
        alloc,
        &dioxide,
        &[1, 0, 2, 0, 0],
        b"[12C][16O]2",
        43_989_829_239_140,
    )?;
    expect(
        &rt,
        alloc,
        &dioxide,
        &[0, 1, 1, 0, 1],
        b"[13C][16O][18O]",
        46_997_429_067_500,
    )?;
    let chain = formula(alloc, b"C12")?;
    expect(
        &rt,
        alloc,
        &chain,
        &[11, 1],
        b"[12C]11[13C]",
        145_003_354_835_070,
    )?;
    Ok(())
}

#[test]
fn labelled_atoms_have_mass_and_no_text(rt: HostRuntime) -> Result<(), Fail> {
    let alloc = rt.alloc();
    let all = labelled(&rt, alloc, 0)?;
    expect(&rt, alloc, &all, &[], b"-", 26_006_709_670_140)?;
    let some = labelled(&rt, alloc, 3)?;
    expect(
        &rt,
        alloc,
        &some,
        &[2, 1],
        b"[12C]2[13C]",
        63_010_064_505_210,
    )?;
    Ok(())
}

#[test]
fn masses_of_many_are_those_of_each(rt: HostRuntime) -> Result<(), Fail> {
    let alloc = rt.alloc();
    let dioxide = formula(alloc, b"CO2")?;
    expect_mass(&rt, alloc, &dioxide, &[1, 0, 2, 0, 0], 43_989_829_239_140)?;
    expect_mass(&rt, alloc, &dioxide, &[0, 1, 1, 0, 1], 46_997_429_067_500)?;
    let all = labelled(&rt, alloc, 0)?;
    expect_mass(&rt, alloc, &all, &[], 26_006_709_670_140)?;
    let some = labelled(&rt, alloc, 3)?;
    expect_mass(&rt, alloc, &some, &[2, 1], 63_010_064_505_210)?;
    Ok(())
}

#[test]
fn other_counts_are_of_no_isotopologue(rt: HostRuntime) -> Result<(), Fail> {
    let alloc = rt.alloc();
    let table = read_table(alloc, ELEMENTS)?;
    let dioxide = formula(alloc, b"CO2")?;
    assert!(rt; has_items(&table, &dioxide));
    assert!(rt; !is_isotopologue(&table, &dioxide, &[1, 0, 1, 0, 0]));
    assert!(rt; !is_isotopologue(&table, &dioxide, &[1, 0, 2, 0]));
    assert!(rt; !is_isotopologue(&table, &dioxide, &[1, 0, 2, 0, 0, 0]));
    assert!(rt; !is_isotopologue(&table, &dioxide, &[2, 0, 1, 0, 0]));
    Ok(())
}

#[test]
fn elements_have_the_isotopes_that_occur(rt: HostRuntime) -> Result<(), Fail> {
    let alloc = rt.alloc();
    let table = read_table(alloc, ELEMENTS)?;
    let dioxide = formula(alloc, b"CO2")?;
    assert!(rt; has_items(&table, &dioxide));
    let elements = elements_of(alloc, &table, &dioxide)?;
    assert_eq!(rt; elements.len(), 2);
    let carbon: &[u64] = &[989_300_000_000, 10_700_000_000];
    assert_eq!(rt; elements[0].weights(), carbon);
    assert_eq!(rt; elements[0].atoms(), 1);
    let oxygen: &[u64] = &[997_570_000_000, 380_000_000, 2_050_000_000];
    assert_eq!(rt; elements[1].weights(), oxygen);
    assert_eq!(rt; elements[1].atoms(), 2);
    Ok(())
}

#[test]
fn counts_are_read_from_texts(rt: HostRuntime) -> Result<(), Fail> {
    let alloc = rt.alloc();
    let all = labelled(&rt, alloc, 0)?;
    expect_counts(&rt, alloc, &all, b"-", Some(&[]))?;
    expect_counts(&rt, alloc, &all, b"", None)?;
    expect_counts(&rt, alloc, &all, b"[13C]2", None)?;
    let chain = formula(alloc, b"C12")?;
    expect_counts(&rt, alloc, &chain, b"[12C]12", Some(&[12, 0]))?;
    expect_counts(&rt, alloc, &chain, b"[12C]11[13C]", Some(&[11, 1]))?;
    expect_counts(&rt, alloc, &chain, b"[13C]12", Some(&[0, 12]))?;
    expect_counts(&rt, alloc, &chain, b"-", None)?;
    Ok(())
}

#[test]
fn texts_that_are_not_printed_are_of_no_isotopologue(rt: HostRuntime) -> Result<(), Fail> {
    let alloc = rt.alloc();
    let dioxide = formula(alloc, b"CO2")?;
    expect_counts(
        &rt,
        alloc,
        &dioxide,
        b"[13C][16O][18O]",
        Some(&[0, 1, 1, 0, 1]),
    )?;
    let texts: [&[u8]; 17] = [
        b"",
        b"-",
        b"[13C][18O][16O]",
        b"[16O]2[12C]",
        b"[12C]1[16O]2",
        b"[12C][16O]02",
        b"[12C][16O]2[17O]0",
        b"[012C][16O]2",
        b"[12C][16O]2 ",
        b" [12C][16O]2",
        b"[12C][16O]3",
        b"[12C][16O]",
        b"[12C][16O][16O]",
        b"[12C]2[16O]",
        b"[14C][16O]2",
        b"[12C][16O]99999999999999999999",
        b"[12C][16O2",
    ];
    for text in texts {
        expect_counts(&rt, alloc, &dioxide, text, None)?;
    }
    Ok(())
}
