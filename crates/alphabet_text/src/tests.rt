//! What no clause says: that texts are read with ample memory, and that they are read as the format is described.

use super::*;
use element_table::{Table, read_table};
use std::alloc::{AllocError, Global};
use std::process::Abort;
use std::test::Fail;
use written_items::push_item;

/// The elements that most texts name.
const ELEMENTS: &[u8] = b"symbol,number,mass,abundance,valence
e-,0,0.000548579909,0,0
H,1,1.00782503223,0.999885,1
H,2,2.01410177812,0.000115,1
C,12,12,0.9893,4
C,13,13.00335483507,0.0107,4
N,14,14.00307400443,0.99636,3
N,15,15.00010889888,0.00364,3
O,16,15.99491461957,0.99757,2
O,17,16.99913175650,0.00038,2
O,18,17.99915961286,0.00205,2
P,31,30.97376199842,1,5
S,32,31.9720711744,0.9499,6
S,33,32.9714589098,0.0075,6
S,34,33.967867004,0.0425,6
S,36,35.96708071,0.0001,6
Na,23,22.989769282,1,1
Cl,35,34.968852682,0.7576,1
Cl,37,36.965902602,0.2424,1
";

/// Isotopes of one mass, and an element of almost the same.
const TIES: &[u8] = b"symbol,number,mass,abundance,valence
e-,0,0.000548579909,0,0
A,9,10,0.5,1
A,10,10,0.5,1
B,10,10.00001,1,1
";

/// What is read of a text: each item with its limits, or the words of the fault.
fn reading(alloc: Global, table: &Table, text: &[u8]) -> Result<Vec<u8>, AllocError> {
    let alphabet = match read_alphabet(alloc, table, text) {
        Ok(alphabet) => alphabet,
        Err(fault) => return Vec::from_slice(alloc, fault.words(alloc)?.as_bytes()),
    };
    let mut told = Vec::new(alloc);
    for (item, limit) in alphabet.items().iter().zip(alphabet.limits()) {
        push_item(&mut told, item)?;
        let limits = format!(in alloc; " {}-{} ", limit.low, limit.high)?;
        told.extend_from_slice(limits.as_bytes())?;
    }
    Ok(told)
}

/// Compares what is read of each text with a table.
fn expect_readings(
    rt: &impl Abort,
    alloc: Global,
    table: &Table,
    rows: &[(&[u8], &[u8])],
) -> Result<(), AllocError> {
    for (text, expected) in rows {
        let told = reading(alloc, table, text)?;
        assert!(rt; told.as_slice() == *expected, "{text:?}: {told:?}");
    }
    Ok(())
}

#[test]
fn a_text_is_read_as_its_items_by_falling_mass(rt: HostRuntime) -> Result<(), Fail> {
    let alloc = rt.alloc();
    let elements = read_table(alloc, ELEMENTS)?;
    expect_readings(
        &rt,
        alloc,
        &elements,
        &[
            (b"C", b"C 0-10000 "),
            (b"CHO", b"O 0-10000 C 0-10000 H 0-10000 "),
            (b"C0-5H0-100O0-100", b"O 0-100 C 0-5 H 0-100 "),
            (b"C1-50H0-100NO0-20", b"O 0-20 N 0-10000 C 1-50 H 0-100 "),
            (b"C[13C]1-2", b"[13C] 1-2 C 0-10000 "),
            (b"[013C]00-010000", b"[13C] 0-10000 "),
            (b"C00-05", b"C 0-5 "),
            (b"C000000000000000000000000000003-3", b"C 3-3 "),
            (b"CClNaS", b"Cl 0-10000 S 0-10000 Na 0-10000 C 0-10000 "),
        ],
    )?;
    let ties = read_table(alloc, TIES)?;
    expect_readings(
        &rt,
        alloc,
        &ties,
        &[
            (b"AB", b"B 0-10000 A 0-10000 "),
            (b"A[10A]", b"A 0-10000 [10A] 0-10000 "),
            (
                b"[9A]1-2[10A]0-1BA",
                b"B 0-10000 A 0-10000 [10A] 0-1 [9A] 1-2 ",
            ),
        ],
    )?;
    Ok(())
}

#[test]
fn the_first_fault_of_a_text_comes_with_its_place(rt: HostRuntime) -> Result<(), Fail> {
    let alloc = rt.alloc();
    let elements = read_table(alloc, ELEMENTS)?;
    expect_readings(
        &rt,
        alloc,
        &elements,
        &[
            (b"", b"bad text at 0"),
            (b"c", b"bad text at 0"),
            (b"5-6", b"bad text at 0"),
            (b"C1-", b"bad text at 3"),
            (b"C-5", b"bad text at 1"),
            (b"C5", b"bad text at 2"),
            (b"C5H", b"bad text at 2"),
            (b"C1-2-3", b"bad text at 4"),
            (b"C1-x", b"bad text at 3"),
            (b"C H", b"bad text at 1"),
            (b"Uuue", b"bad text at 3"),
            (b"[C]", b"bad text at 1"),
            (b"[13C", b"bad text at 4"),
            ("Cé".as_bytes(), b"bad text at 1"),
            ("éC".as_bytes(), b"bad text at 0"),
            (b"Qq5-20000", b"bad text at 4"),
            (b"C0-10001", b"bad text at 3"),
            (b"C10001-5Q", b"bad text at 1"),
            (b"C5-2H3-99999H20000-1", b"bad text at 7"),
            (b"C0-999999999999999999999999999999", b"bad text at 3"),
            (b"C0-20000H-", b"bad text at 9"),
            (b"Qq5-2", b"unknown symbol at 0"),
            (b"CQ5-2C", b"unknown symbol at 1"),
            (b"[0C]", b"unknown symbol at 0"),
            (b"C[13H]", b"unknown symbol at 1"),
            (b"[4294967295C]", b"unknown symbol at 0"),
            (b"[999999999999999999999999999999C]", b"unknown symbol at 0"),
            (b"CHC", b"repeated at 2"),
            (b"CHC5-2Q", b"repeated at 2"),
            (b"[13C]1-2[013C]", b"repeated at 8"),
            (b"C5-2", b"empty range at 0"),
            (b"CH5-2C", b"empty range at 1"),
        ],
    )?;
    assert_eq!(rt; AlphabetFault::Memory.words(alloc)?.as_str(), "memory");
    Ok(())
}

#[test]
fn an_alphabet_has_at_most_20_entries(rt: HostRuntime) -> Result<(), Fail> {
    let alloc = rt.alloc();
    let elements = read_table(alloc, ELEMENTS)?;
    let twenty = b"HCNOPSNaCl[1H][2H][12C][13C][14N][15N][16O][17O][18O][31P][32S][33S]".as_slice();
    assert_eq!(rt; read_alphabet(alloc, &elements, twenty)?.items().len(), 20);
    let mut more = Vec::from_slice(alloc, twenty)?;
    more.extend_from_slice(b"[34S]")?;
    let mut repeated = Vec::from_slice(alloc, twenty)?;
    repeated.extend_from_slice(b"[34S]H")?;
    expect_readings(
        &rt,
        alloc,
        &elements,
        &[(&more, b"too many"), (&repeated, b"repeated at 73")],
    )?;
    Ok(())
}

#[test]
fn the_masses_are_those_of_the_reference_isotope_and_of_the_labelled_one(
    rt: HostRuntime,
) -> Result<(), Fail> {
    let alloc = rt.alloc();
    let elements = read_table(alloc, ELEMENTS)?;
    let alphabet = read_alphabet(alloc, &elements, b"C[13C]H")?;
    assert_eq!(rt;
        alphabet.masses(),
        [13_003_354_835_070, 12_000_000_000_000, 1_007_825_032_230].as_slice()
    );
    Ok(())
}
