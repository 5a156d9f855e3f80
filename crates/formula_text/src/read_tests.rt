//! Texts that are read with ample memory: the formulas and faults of the grammar.

use super::*;
use element_table::{Table, read_table};
use std::alloc::Global;
use std::process::Abort;
use std::test::Fail;

const ELEMENTS: &[u8] = b"symbol,number,mass,abundance,valence
e-,0,0.000548579909,0,0
H,1,1.00782503223,0.999885,1
H,2,2.01410177812,0.000115,1
C,12,12,0.9893,4
C,13,13.00335483507,0.0107,4
O,16,15.99491461957,0.99757,2
Cl,35,34.968852682,0.7576,1
Uue,315,315,1,1
";

/// What is read of a text: the printed formula, or the words of the fault.
fn outcome(alloc: Global, table: &Table, text: &[u8]) -> Result<Vec<u8>, Fail> {
    Ok(match read_formula(alloc, table, text) {
        Ok(formula) => formula.print()?,
        Err(fault) => fault.words(alloc)?.into_bytes(),
    })
}

fn expect_outcomes(rt: &impl Abort, alloc: Global, rows: &[(&[u8], &[u8])]) -> Result<(), Fail> {
    let table = read_table(alloc, ELEMENTS)?;
    for (text, said) in rows {
        let found = outcome(alloc, &table, text)?;
        assert_eq!(rt; found.as_slice(), *said);
    }
    Ok(())
}

#[test]
fn a_text_is_read_as_the_sum_of_its_items(rt: HostRuntime) -> Result<(), Fail> {
    let rows: &[(&[u8], &[u8])] = &[
        (b"CH4CH4", b"C2H8"),
        (b"O6H12C6", b"C6H12O6"),
        (b"C06H1O0000000000000000000006", b"C6HO6"),
        (b"HCl", b"ClH"),
        (b"C0UueHO", b"HOUue"),
        (b"H10000", b"H10000"),
        (b"H10000C10000", b"C10000H10000"),
        (b"[13C]C5H12O6", b"C5[13C]H12O6"),
        (b"[013C]2[13C]3", b"[13C]5"),
        (b"O[2H]H[2H]", b"H[2H]2O"),
        (b"[12C]", b"[12C]"),
        (b"HHHHHHHHHHHHHHHHHHHHHHHHH", b"H25"),
    ];
    expect_outcomes(&rt, rt.alloc(), rows)
}

#[test]
fn a_refused_text_has_its_first_fault(rt: HostRuntime) -> Result<(), Fail> {
    let rows: &[(&[u8], &[u8])] = &[
        (b"", b"empty"),
        (b"H0", b"empty"),
        (b"[13C]0H00", b"empty"),
        (b"Qa", b"unknown symbol at 0"),
        (b"C2h", b"bad text at 2"),
        (b"Uuee", b"bad text at 3"),
        (b"2H", b"bad text at 0"),
        (b"[", b"bad text at 1"),
        (b"[1", b"bad text at 2"),
        (b"[13C", b"bad text at 4"),
        (b"[C]", b"bad text at 1"),
        (b"C[13H]2]", b"bad text at 7"),
        (b"Qa0C(", b"bad text at 4"),
        ("C\u{e9}".as_bytes(), b"bad text at 1"),
        ("\u{e9}C".as_bytes(), b"bad text at 0"),
        (b"H99999Qa0", b"unknown symbol at 6"),
        (b"[0C]", b"unknown isotope at 0"),
        (b"C[14C]Qa", b"unknown isotope at 1"),
        (b"CQa[14C]", b"unknown symbol at 1"),
        (b"[12Qa]", b"unknown symbol at 0"),
        (b"[4294967308C]", b"unknown isotope at 0"),
        (b"[18446744073709551628C]", b"unknown isotope at 0"),
        (b"H10001", b"too many atoms"),
        (b"H10000C10000O", b"too many atoms"),
        (b"H99999999999999999999", b"too many atoms"),
        (b"H4294967296", b"too many atoms"),
        (b"H10000O9999C2", b"too many atoms"),
    ];
    expect_outcomes(&rt, rt.alloc(), rows)
}

/// A table of the 21 elements Aa to Au.
fn table_of_21(alloc: Global) -> Result<Table, Fail> {
    let mut file = Vec::new(alloc);
    file.extend_from_slice(b"symbol,number,mass,abundance,valence\ne-,0,0.0005,0,0\n")?;
    for letter in b'a'..=b'u' {
        file.extend_from_slice(&[b'A', letter])?;
        file.extend_from_slice(b",1,1,1,1\n")?;
    }
    Ok(read_table(alloc, &file)?)
}

#[test]
fn a_text_has_at_most_20_symbols(rt: HostRuntime) -> Result<(), Fail> {
    let alloc = rt.alloc();
    let table = table_of_21(alloc)?;
    let mut text = Vec::new(alloc);
    for letter in b'a'..=b't' {
        text.extend_from_slice(&[b'A', letter])?;
    }
    let twenty = text.clone()?;
    // A symbol again, and one without an atom, make no more of them.
    for (more, is_read) in [
        (b"".as_slice(), true),
        (b"Aa", true),
        (b"Au0", true),
        (b"Au", false),
    ] {
        text.truncate(twenty.len());
        text.extend_from_slice(more)?;
        let found = outcome(alloc, &table, &text)?;
        assert_eq!(rt; found.len() >= twenty.len(), is_read);
        assert_eq!(rt;
            found.as_slice() == b"too many elements".as_slice(),
            !is_read
        );
    }
    let found = outcome(alloc, &table, &twenty)?;
    assert_eq!(rt; found.as_slice(), twenty.as_slice());
    Ok(())
}

#[test]
fn the_mass_is_the_sum_of_the_atoms_masses(rt: HostRuntime) -> Result<(), Fail> {
    let alloc = rt.alloc();
    let table = read_table(alloc, ELEMENTS)?;
    for (text, atoms, mass) in [
        (b"C6H12O6".as_slice(), 24, 180_063_388_104_180),
        (b"[13C]C5H12O6", 24, 181_066_742_939_250),
        (b"[2H]2O", 3, 20_023_118_175_810),
    ] {
        let formula = read_formula(alloc, &table, text)?;
        assert!(rt; formula.is_of(&table));
        assert_eq!(rt; formula.mass(&table), mass);
        assert_eq!(rt; formula.atoms(), atoms);
        let copy = formula.clone()?;
        assert_eq!(rt; copy.items(), formula.items());
    }
    Ok(())
}
