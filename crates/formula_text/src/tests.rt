//! What no clause says: that calls succeed with ample memory, and that sums and texts are those of
//! the field.

use super::*;
use element_table::Symbol;
use std::alloc::Global;
use std::process::Abort;
use std::test::Fail;

/// The item of a symbol and a label.
fn item(rt: &impl Abort, symbol: &[u8], label: u32) -> Item {
    let symbol = Symbol::of(symbol).expect(rt, "a symbol");
    Item { symbol, label }
}

/// What the sum of some parts, each a symbol, a label and a count, is to be printed as, `-` where
/// there is none.
fn expect_sum(
    rt: &impl Abort,
    alloc: Global,
    parts: &[(&[u8], u32, u32)],
    text: &[u8],
) -> Result<(), Fail> {
    let mut items = Vec::new(alloc);
    for (symbol, label, count) in parts {
        items.push((item(rt, symbol, *label), *count))?;
    }
    match Formula::of(alloc, &items)? {
        Some(formula) => {
            let printed = formula.print()?;
            assert_eq!(rt; printed.as_slice(), text);
        }
        None => assert_eq!(rt; text, b"-".as_slice()),
    }
    Ok(())
}

#[test]
fn sums_are_printed_in_hill_order(rt: HostRuntime) -> Result<(), Fail> {
    let rows: &[(&[(&[u8], u32, u32)], &[u8])] = &[
        (
            &[(b"C", 0, 1), (b"H", 0, 4), (b"C", 0, 1), (b"H", 0, 4)],
            b"C2H8",
        ),
        (&[(b"O", 0, 6), (b"H", 0, 12), (b"C", 0, 6)], b"C6H12O6"),
        (
            &[(b"Br", 0, 1), (b"H", 0, 5), (b"C", 0, 2), (b"B", 0, 1)],
            b"C2H5BBr",
        ),
        (&[(b"Na", 0, 1), (b"Cl", 0, 1)], b"ClNa"),
        (&[(b"H", 0, 1), (b"Cl", 0, 1)], b"ClH"),
        (&[(b"H", 0, 2), (b"C", 0, 0), (b"B", 0, 1)], b"BH2"),
        (
            &[(b"C", 0, 5), (b"H", 0, 12), (b"C", 13, 1), (b"O", 0, 6)],
            b"C5[13C]H12O6",
        ),
        (
            &[(b"B", 0, 1), (b"H", 0, 3), (b"H", 2, 1), (b"C", 13, 1)],
            b"[13C]H3[2H]B",
        ),
    ];
    for (parts, text) in rows {
        expect_sum(&rt, rt.alloc(), parts, text)?;
    }
    Ok(())
}

#[test]
fn sums_are_within_the_limits(rt: HostRuntime) -> Result<(), Fail> {
    let rows: &[(&[(&[u8], u32, u32)], &[u8])] = &[
        (&[], b"-"),
        (&[(b"C", 0, 0)], b"-"),
        (&[(b"C", 0, 10_000)], b"C10000"),
        (&[(b"C", 0, 10_001)], b"-"),
        (&[(b"C", 0, 9_999), (b"C", 0, 2)], b"-"),
        (&[(b"C", 0, 10_000), (b"H", 0, 10_000)], b"C10000H10000"),
        (&[(b"C", 0, 10_000), (b"H", 0, 9_999), (b"N", 0, 2)], b"-"),
        (&[(b"C", 0, u32::MAX), (b"C", 0, u32::MAX)], b"-"),
    ];
    for (parts, text) in rows {
        expect_sum(&rt, rt.alloc(), parts, text)?;
    }
    Ok(())
}

#[test]
fn a_formula_has_at_most_20_items(rt: HostRuntime) -> Result<(), Fail> {
    let alloc = rt.alloc();
    let mut parts = Vec::new(alloc);
    for label in 1..=20 {
        parts.push((item(&rt, b"Xe", label), 1))?;
    }
    let formula = Formula::of(alloc, &parts)?.expect(&rt, "20 items");
    assert_eq!(rt; formula.items().len(), 20);
    assert_eq!(rt; formula.atoms(), 20);
    assert_eq!(rt; formula.count(item(&rt, b"Xe", 7)), 1);
    assert_eq!(rt; formula.count(item(&rt, b"Xe", 0)), 0);
    parts.push((item(&rt, b"Xe", 20), 1))?;
    assert!(rt; Formula::of(alloc, &parts)?.is_some());
    parts.push((item(&rt, b"Xe", 21), 1))?;
    assert!(rt; Formula::of(alloc, &parts)?.is_none());
    let refused = match Parts::of(alloc, &parts) {
        Err(PartsFault::TooManyElements) => true,
        _ => false,
    };
    assert!(rt; refused);
    Ok(())
}

#[test]
fn parts_may_have_no_atom(rt: HostRuntime) -> Result<(), Fail> {
    let parts = Parts::of(rt.alloc(), &[])?;
    assert_eq!(rt; parts.print()?.len(), 0);
    assert_eq!(rt; parts.atoms(), 0);
    assert_eq!(rt; parts.items().len(), 0);
    assert!(rt; parts.clone()?.items().is_empty());
    assert!(rt; Formula::from_parts(parts).is_none());
    Ok(())
}
