//! What no clause says: that the definitions mean what texts of decimals mean, and that printing
//! succeeds with ample memory.

use super::*;
use std::process::Abort;
use std::test::Fail;

fn read<const D: u32>(text: &[u8]) -> Result<u64, DecimalFault> {
    Fixed::<D>::read(text, u64::MAX).map(|fixed| fixed.units())
}

fn not_decimal(place: u64) -> Result<u64, DecimalFault> {
    Err(DecimalFault::NotDecimal { place })
}

fn too_fine(place: u64) -> Result<u64, DecimalFault> {
    Err(DecimalFault::TooFine { place })
}

#[test]
fn a_decimal_text_is_read_to_its_units(rt: HostRuntime) {
    for (text, units) in [
        (b"1.0000".as_slice(), 1000),
        (b"5", 5000),
        (b"0.05", 50),
        (b"00012.345", 12345),
    ] {
        assert_eq!(rt; read::<3>(text), Ok(units));
    }
    assert_eq!(rt; read::<12>(b"180.063388104180"), Ok(180_063_388_104_180));
    assert_eq!(rt; read::<18>(b"18.446744073709551615"), Ok(u64::MAX));
    assert_eq!(rt; read::<18>(b"18.44674407370955161500"), Ok(u64::MAX));
    assert_eq!(rt; Fixed::<3>::read(b"5", 5000), Ok(Fixed::of(5000)));
}

#[test]
fn the_first_fault_of_a_text_comes_with_its_place(rt: HostRuntime) {
    for (text, answer) in [
        (b"".as_slice(), not_decimal(0)),
        (b".5", not_decimal(0)),
        (b"-1", not_decimal(0)),
        (b"12.", not_decimal(3)),
        (b"12,5", not_decimal(2)),
        (b"1.5 ", not_decimal(3)),
        (b"1.5.5", not_decimal(3)),
        (b"1.00050x", not_decimal(7)),
        (b"1.0005", too_fine(5)),
        (b"99999999999999999.0005", too_fine(21)),
        (b"99999999999999999", Err(DecimalFault::TooLarge)),
    ] {
        assert_eq!(rt; read::<3>(text), answer);
    }
    assert_eq!(rt; Fixed::<3>::read(b"5", 4999), Err(DecimalFault::TooLarge));
    assert_eq!(rt;
        read::<18>(b"18.446744073709551616"),
        Err(DecimalFault::TooLarge)
    );
    assert_eq!(rt; read::<18>(b"19"), Err(DecimalFault::TooLarge));
}

#[test]
fn a_million_digits_are_one_number(rt: HostRuntime) -> Result<(), Fail> {
    let nines = vec![in rt.alloc(); b'9'; 1_000_000]?;
    assert_eq!(rt; read::<3>(&nines), Err(DecimalFault::TooLarge));
    assert_eq!(rt; whole(&nines, u64::MAX), None);
    let mut zeros = vec![in rt.alloc(); b'0'; 1_000_000]?;
    zeros.push(b'7')?;
    assert_eq!(rt; read::<3>(&zeros), Ok(7000));
    assert_eq!(rt; whole(&zeros, 7), Some(7));
    Ok(())
}

#[test]
fn a_whole_number_has_digits_alone(rt: HostRuntime) {
    for (text, limit, number) in [
        (b"007".as_slice(), 7, Some(7)),
        (b"0", 0, Some(0)),
        (b"8", 7, None),
        (b"", 7, None),
        (b"+7", 7, None),
        (b"7.0", 7, None),
        (b"18446744073709551615", u64::MAX, Some(u64::MAX)),
        (b"18446744073709551616", u64::MAX, None),
    ] {
        assert_eq!(rt; whole(text, limit), number);
    }
}

/// Checks the printed text of so many units.
fn expect_text<const D: u32>(
    rt: &impl Abort,
    alloc: Global,
    units: u64,
    text: &[u8],
) -> Result<(), Fail> {
    assert_eq!(rt; Fixed::<D>::of(units).print(alloc)?.as_slice(), text);
    Ok(())
}

#[test]
fn units_are_printed_with_their_decimals(rt: HostRuntime) -> Result<(), Fail> {
    let alloc = rt.alloc();
    expect_text::<3>(&rt, alloc, 0, b"0.000")?;
    expect_text::<3>(&rt, alloc, 10_000, b"10.000")?;
    expect_text::<9>(&rt, alloc, 1, b"0.000000001")?;
    expect_text::<12>(&rt, alloc, 180_063_388_104_180, b"180.063388104180")?;
    expect_text::<18>(&rt, alloc, u64::MAX, b"18.446744073709551615")?;
    Ok(())
}

#[test]
fn a_number_is_read_from_the_lower_to_the_upper_end_of_a_range(rt: HostRuntime) {
    for (text, decimal, number) in [
        (b"2".as_slice(), Some(2000), Some(2)),
        (b"02.000", Some(2000), None),
        (b"1.999", None, None),
        (b"2.0005", None, None),
        (b"2005", None, Some(2005)),
        (b"2.005", Some(2005), None),
        (b"2.006", None, None),
        (b"2006", None, None),
        (b"1", None, None),
        (b"", None, None),
        (b"x", None, None),
    ] {
        let read = Fixed::<3>::read_within(text, 2000, 2005).map(|fixed| fixed.units());
        assert_eq!(rt; read, decimal);
        assert_eq!(rt; whole_within(text, 2, 2005), number);
    }
}

#[test]
fn digits_of_any_length_spell_at_most_the_cap(rt: HostRuntime) {
    for (digits, number) in [
        (b"".as_slice(), 0),
        (b"0000000000000000000000007", 7),
        (b"1000", 1000),
        (b"1001", 1000),
        (b"99999999999999999999999", 1000),
    ] {
        assert_eq!(rt; capped_number(digits, 1000), number);
    }
    assert_eq!(rt; capped_number(b"18446744073709551616", u64::MAX), u64::MAX);
}

#[test]
fn leading_digits_end_at_the_first_other_byte(rt: HostRuntime) {
    for (text, digits) in [
        (b"0012-5".as_slice(), b"0012".as_slice()),
        (b"7", b"7"),
        (b"C12", b""),
        (b"", b""),
    ] {
        assert_eq!(rt; leading_digits(text), digits);
    }
}

#[test]
fn a_fault_is_told_in_words(rt: HostRuntime) -> Result<(), Fail> {
    for (fault, words) in [
        (
            DecimalFault::NotDecimal { place: 3 },
            "byte 3: not a decimal number",
        ),
        (
            DecimalFault::TooFine { place: 21 },
            "byte 21: a digit behind the last decimal that isn't 0",
        ),
        (DecimalFault::TooLarge, "the number is above its limit"),
    ] {
        assert_eq!(rt; fault.to_string(rt.alloc())?.as_str(), words);
    }
    Ok(())
}
