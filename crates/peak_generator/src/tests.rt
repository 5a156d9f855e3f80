//! The peaks of known numbers.
ghost use Rattle.std.specs.Prelude.{◌↔◌, All, IsTrue};
ghost use Rattle.formula_text.specs.Masses.{HasItems};

use super::*;
use adducts::read_adduct;
use element_table::{Table, read_table};
use formula_text::Formula;
use peak_text::{PeakFault, Peaks};
use std::alloc::Global;
use std::process::Abort;
use std::test::Fail;

const TABLE: &[u8] = b"symbol,number,mass,abundance,valence\n\
e-,0,0.000548579909,0,0\n\
H,1,1.00782503223,0.999885,1\n\
C,12,12,0.9893,4\n\
N,14,14.00307400443,0.99636,3\n\
O,16,15.99491461957,0.99757,2\n";

/// Atoms of 400 Da, of which more than 49 are too heavy for a peak.
const HEAVY: &[u8] = b"symbol,number,mass,abundance,valence\n\
e-,0,0.0005,0,0\n\
H,1,400,1,1\n\
C,12,400,1,4\n\
N,14,400,1,3\n\
O,16,400,1,2\n";

#[test]
fn the_first_draws_of_number_1(rt: HostRuntime) {
    let mut draws = Draws::of(1);
    for expected in [16838, 5758, 10113, 17515] {
        let drawn = draws.draw();
        assert_eq!(rt; drawn, expected);
    }
}

/// Whether a table has the items of each formula.
fn has_items(table: &Table, formulas: &[Formula]) -> bool
    ensures { IsTrue result ↔ All (HasItems table.now) formulas.now }
{
    formulas.iter().all(|formula| formula.is_of(table))
}

/// The peaks of the first formulas of number 1 with a table, and the first formula's text.
fn made(
    rt: &impl Abort,
    alloc: Global,
    text: &[u8],
) -> Result<(Vec<u8>, Result<Peaks, PeakFault>), Fail> {
    let table = read_table(alloc, text)?;
    let adduct = read_adduct(alloc, &table, b"[M+H]+")?;
    let formulas = made_formulas(alloc, 1, 200)?;
    assert!(rt; has_items(&table, &formulas));
    let first = match formulas.first() {
        Some(formula) => formula.print()?,
        None => Vec::new(alloc),
    };
    Ok((first, made_peaks(alloc, &table, &adduct, &formulas)))
}

#[test]
fn the_first_peak_of_number_1(rt: HostRuntime) -> Result<(), Fail> {
    let (first, peaks) = made(&rt, rt.alloc(), TABLE)?;
    let peaks = peaks?;
    assert_eq!(rt; first.as_slice(), b"C9H19NO3".as_slice());
    assert_eq!(rt; peaks.mz().len(), 200);
    assert_eq!(rt; peaks.mz().first(), Some(&190_143_769_927_831));
    assert_eq!(rt; peaks.intensity().first(), Some(&MADE_INTENSITY));
    Ok(())
}

#[test]
fn a_made_mz_above_20_000_da(rt: HostRuntime) -> Result<(), Fail> {
    let (_, peaks) = made(&rt, rt.alloc(), HEAVY)?;
    assert!(rt; matches!(&peaks, Err(PeakFault::Mz { row: 5 })));
    Ok(())
}
