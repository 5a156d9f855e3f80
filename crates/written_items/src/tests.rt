//! What no clause says: that texts are read and printed with ample memory, as the field writes them.

use super::*;
use element_table::Symbol;
use std::alloc::Global;
use std::process::Abort;
use std::test::Fail;

/// What is read at the beginning of a text: the symbol, the number in brackets (0 for none) and the bytes that
/// the item takes; for bad text no symbol, and the place.
fn reading(text: &[u8]) -> (Option<Symbol>, u32, usize) {
    match leading_item(text) {
        Ok(item) => (Some(item.symbol), item.number.unwrap_or(0), item.byte_count),
        Err(bad) => (None, 0, bad.at),
    }
}

#[test]
fn an_item_is_read_at_the_beginning_of_a_text(rt: HostRuntime) -> Result<(), Fail> {
    let rows: &[(&[u8], &[u8], u32, usize)] = &[
        (b"C", b"C", 0, 1),
        (b"C6H12O6", b"C", 0, 1),
        (b"Cl", b"Cl", 0, 2),
        (b"CL", b"C", 0, 1),
        (b"Uuee", b"Uue", 0, 3),
        (b"[13C]5", b"C", 13, 5),
        (b"[013C]", b"C", 13, 6),
        (b"[0C]", b"C", 0, 4),
        (b"[79Br][81Br]", b"Br", 79, 6),
        (b"[4294967295Uue]", b"Uue", u32::MAX, 15),
        (b"[99999999999999999999H]", b"H", u32::MAX, 23),
    ];
    for (text, symbol, number, byte_count) in rows {
        let (read, told, taken) = reading(text);
        assert!(rt; read == Symbol::of(symbol) && read.is_some());
        assert_eq!(rt; told, *number);
        assert_eq!(rt; taken, *byte_count);
    }
    Ok(())
}

#[test]
fn bad_text_is_at_the_first_byte_at_which_no_item_can_go_on(rt: HostRuntime) -> Result<(), Fail> {
    let rows: &[(&[u8], usize)] = &[
        (b"", 0),
        (b"c", 0),
        (b"2H", 0),
        (b"]", 0),
        (b"\xc3\xa9C", 0),
        (b"[", 1),
        (b"[C]", 1),
        (b"[1", 2),
        (b"[1x]", 2),
        (b"[13C", 4),
        (b"[13C5", 4),
        (b"[13Uuee]", 6),
        (b"[13[C]", 3),
    ];
    for (text, at) in rows {
        let (read, _, place) = reading(text);
        assert!(rt; read.is_none());
        assert_eq!(rt; place, *at);
    }
    Ok(())
}

#[test]
fn the_symbol_at_the_beginning_of_a_text_is_read(rt: HostRuntime) -> Result<(), Fail> {
    assert!(rt; leading_symbol(b"NaCl") == Symbol::of(b"Na"));
    assert!(rt; leading_symbol(b"2H").is_none());
    Ok(())
}

/// An item with its count as it is printed.
fn expect_printed(
    rt: &impl Abort,
    alloc: Global,
    symbol: &[u8],
    label: u32,
    count: u32,
    text: &[u8],
) -> Result<(), Fail> {
    let symbol = Symbol::of(symbol).expect(rt, "a symbol");
    let mut printed = Vec::from_slice(alloc, b"(")?;
    push_item(&mut printed, &Item { symbol, label })?;
    push_count(&mut printed, count)?;
    assert_eq!(rt; printed.as_slice(), text);
    Ok(())
}

#[test]
fn an_item_is_printed_with_its_count(rt: HostRuntime) -> Result<(), Fail> {
    let alloc = rt.alloc();
    expect_printed(&rt, alloc, b"C", 0, 1, b"(C")?;
    expect_printed(&rt, alloc, b"Na", 0, 10_000, b"(Na10000")?;
    expect_printed(&rt, alloc, b"C", 13, 1, b"([13C]")?;
    expect_printed(
        &rt,
        alloc,
        b"Uue",
        u32::MAX,
        u32::MAX,
        b"([4294967295Uue]4294967295",
    )?;
    expect_printed(&rt, alloc, b"H", 2, 0, b"([2H]0")?;
    Ok(())
}
