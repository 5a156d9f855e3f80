//! Texts that are read with ample memory, and the ions of formulas.

use super::*;
use element_table::{Table, read_table};
use formula_text::{Formula, read_formula};
use mass_scaling::Charged;
use std::alloc::Global;
use std::process::Abort;
use std::test::Fail;

const ELEMENTS: &[u8] = b"symbol,number,mass,abundance,valence
e-,0,0.000548579909,0,0
H,1,1.00782503223,0.999885,1
H,2,2.01410177812,0.000115,1
C,12,12,0.9893,4
C,13,13.00335483507,0.0107,4
N,14,14.00307400443,0.99636,3
O,16,15.99491461957,0.99757,2
Na,23,22.989769282,1,1
B,11,11,1,3\nF,19,19,1,1\nI,127,127,1,1\nK,39,39,1,1\nP,31,31,1,3\nS,32,32,1,2\nU,238,238,1,6\nV,51,51,1,5
W,184,184,1,6\nX,10,10,1,0\nY,89,89,1,3\nZ,30,30,1,1\nA,20,20,1,1\nD,21,21,1,1\nE,22,22,1,1\nG,23,23,1,1
";

/// What is read of a text: the added and the lost atoms, or the words of the fault.
fn outcome(alloc: Global, table: &Table, text: &[u8]) -> Result<Vec<u8>, Fail> {
    let mut said = Vec::new(alloc);
    match read_adduct(alloc, table, text) {
        Ok(adduct) => {
            let added = adduct.added().print()?;
            let lost = adduct.lost().print()?;
            said.extend_from_slice(&added)?;
            said.push(b'|')?;
            said.extend_from_slice(&lost)?;
        }
        Err(fault) => {
            let words = fault.words(alloc)?;
            said.extend_from_slice(words.as_str().as_bytes())?;
        }
    }
    Ok(said)
}

fn expect_outcomes(rt: &impl Abort, alloc: Global, rows: &[(&[u8], &[u8])]) -> Result<(), Fail> {
    let table = read_table(alloc, ELEMENTS)?;
    for (text, said) in rows {
        let found = outcome(alloc, &table, text)?;
        assert_eq!(rt; found.as_slice(), *said);
    }
    Ok(())
}

#[test]
fn terms_add_up_by_their_signs(rt: HostRuntime) -> Result<(), Fail> {
    let rows: &[(&[u8], &[u8])] = &[
        (b"M", b"|"),
        (b"[M]-", b"|"),
        (b"[M+H]+", b"H|"),
        (b"[M+02H]2+", b"H2|"),
        (b"[M+NH4]+", b"H4N|"),
        (b"[M-H2O+H]+", b"H|H2O"),
        (b"[2M+Na-2H2O+H-HO]+", b"HNa|H5O3"),
        (b"[M+3C2H3+C]30-", b"C7H9|"),
        (b"[M+99999999999999999999H0]+", b"|"),
        (b"[M-10000H]+", b"|H10000"),
    ];
    expect_outcomes(&rt, rt.alloc(), rows)
}

#[test]
fn a_refused_text_has_its_first_fault(rt: HostRuntime) -> Result<(), Fail> {
    let rows: &[(&[u8], &[u8])] = &[
        (b"", b"bad text at 0"),
        (b"2M", b"bad text at 0"),
        (b"Ma", b"bad text at 1"),
        (b"M+", b"bad text at 1"),
        (b"[]", b"bad text at 1"),
        (b"[2", b"bad text at 2"),
        (b"[Ma]+", b"bad text at 2"),
        (b"[M]", b"bad text at 3"),
        (b"[M]2", b"bad text at 4"),
        (b"[M+]+", b"bad text at 3"),
        (b"[M+2]+", b"bad text at 4"),
        (b"[M+h]+", b"bad text at 3"),
        (b"[M+Uuee]+", b"bad text at 6"),
        (b"[M+H2o]+", b"bad text at 5"),
        (b"[M+[13C]]+", b"bad text at 3"),
        (b"[M+H]++", b"bad text at 6"),
        (b"[M+H]+2", b"bad text at 6"),
        (b"[5M+Q]+ ", b"bad text at 7"),
        (b"[M+M]+", b"unknown symbol at 3"),
        (b"[M+2H2Q0-Mo]+", b"unknown symbol at 6"),
        (b"[5M+H10001-Q]0+", b"unknown symbol at 11"),
        (b"[M+H10001]+", b"too many atoms"),
        (b"[M+2H5001]+", b"too many atoms"),
        (b"[M+H-4294967296H4294967296]+", b"too many atoms"),
        (b"[M+HCNOBFIKPSUVWXYZADEGNa-C10001]+", b"too many atoms"),
        (b"[0M+HCNOBFIKPSUVWXYZADEGNa]+", b"too many elements"),
        (b"[M-HCNOBFIKPSUVWXYZADEGNa]0+", b"too many elements"),
        (b"[0M]0+", b"copies"),
        (b"[5M]+", b"copies"),
        (b"[99999999999999999999M]+", b"copies"),
        (b"[M]0-", b"charge"),
        (b"[M+H]31+", b"charge"),
        (b"[M]99999999999999999999+", b"charge"),
    ];
    expect_outcomes(&rt, rt.alloc(), rows)
}

#[test]
fn an_adduct_has_a_charge_and_shifts_the_mass_of_its_copies(rt: HostRuntime) -> Result<(), Fail> {
    let alloc = rt.alloc();
    let table = read_table(alloc, ELEMENTS)?;
    let rows: &[(&[u8], u32, u32, i32, i128)] = &[
        (b"M", 1, 1, 0, 0),
        (b"[M+H]+", 1, 1, 1, 1_007_276_452_321),
        (b"[M-H]-", 1, 1, -1, -1_007_276_452_321),
        (b"[M]-", 1, 1, -1, 548_579_909),
        (b"[4M]30+", 4, 30, 30, -16_457_397_270),
        (b"[2M+Na-H2O]2+", 2, 2, 2, 4_978_107_438_152),
    ];
    for (text, copies, divisor, charge, shift) in rows {
        let adduct = read_adduct(alloc, &table, text)?;
        let copy = adduct.clone()?;
        assert_eq!(rt; copy.charge(), *charge);
        let (copies, divisor, shift) = (*copies, *divisor, *shift);
        assert_eq!(rt;
            copy.charged(&table),
            Charged {
                copies,
                divisor,
                shift
            }
        );
    }
    Ok(())
}

#[test]
fn an_ion_has_the_copies_and_the_added_atoms_without_those_lost(
    rt: HostRuntime,
) -> Result<(), Fail> {
    let alloc = rt.alloc();
    let table = read_table(alloc, ELEMENTS)?;
    let rows: &[(&[u8], &[u8], &[u8], i128)] = &[
        (b"C2H6O", b"M", b"C2H6O", 46_041_864_812_950),
        (b"C2H6O", b"[M-H2O+H]+", b"C2H5", 29_038_576_581_241),
        (b"C6H12O6", b"[2M+Na]+", b"C12H24NaO12", 383_115_996_910_451),
        (b"[13C]H4", b"[M+H]+", b"[13C]H5", 18_041_931_416_311),
        (b"CH4", b"[M-5H+H]-", b"C", 12_000_548_579_909),
        (b"C5000", b"[2M]+", b"C10000", 119_999_999_451_420_091),
    ];
    for (text, adduct, ion, mass) in rows {
        let formula = read_formula(alloc, &table, text)?;
        let adduct = read_adduct(alloc, &table, adduct)?;
        assert_eq!(rt; ion_mass(&table, &formula, &adduct), Some(*mass));
        let made = ion_of(alloc, &formula, &adduct)?.ok_or("an ion")?;
        let printed = made.print()?;
        assert_eq!(rt; printed.as_slice(), *ion);
    }
    Ok(())
}

#[test]
fn an_ion_that_lacks_atoms_or_passes_a_limit_is_none(rt: HostRuntime) -> Result<(), Fail> {
    let alloc = rt.alloc();
    let table = read_table(alloc, ELEMENTS)?;
    let rows: &[(&[u8], &[u8])] = &[
        (b"C", b"[M-H]+"),
        (b"C3H10", b"[M-H2O+H]+"),
        (b"CH4", b"[M-CH4]+"),
        (b"C5001", b"[2M]+"),
        (b"C10000H10000", b"[M+O]+"),
        (b"HCNOBFIKPSUVWXYZADEG", b"[M+Na]+"),
    ];
    for (text, adduct) in rows {
        let formula: Formula = read_formula(alloc, &table, text)?;
        let adduct = read_adduct(alloc, &table, adduct)?;
        assert!(rt; ion_of(alloc, &formula, &adduct)?.is_none());
        assert!(rt; ion_mass(&table, &formula, &adduct).is_none());
        assert!(rt; !has_ion(formula.items(), &adduct));
    }
    Ok(())
}
