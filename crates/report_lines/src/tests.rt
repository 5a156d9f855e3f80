//! Values that come from outside: the lines of the worked reports, and that each call succeeds with ample memory.
ghost use Rattle.std.specs.Prelude.{pos, ◌+ℤ◌, IsTrue, All};
ghost use Rattle.report_lines.specs.ReportLines.{IsPrintedMass, IsPrintedWith, cover_members};

use super::*;
use adducts::{ion_of, read_adduct};
use cover_certificate::{Cover, cover_of};
use element_table::read_table;
use formula_text::read_formula;
use std::alloc::Global;
use std::process::Abort;
use std::test::Fail;

const ELEMENTS: &[u8] = b"symbol,number,mass,abundance,valence
e-,0,0.000548579909,0,0
H,1,1.00782503223,0.999885,1
H,2,2.01410177812,0.000115,1
C,12,12,0.9893,4
C,13,13.00335483507,0.0107,4
O,16,15.99491461957,0.99757,2
O,17,16.99913175650,0.00038,2
O,18,17.99915961286,0.00205,2
X,10,10,0.5,1
X,11,11,0.5,1
Y,20,20,0.3,2
Y,21,21,0.3,2
Y,22,22,0.3,2
";

/// Whether a mass with a shift is one that is printed.
fn is_printed(mass: u64, shift: i128) -> bool
    ensures { IsTrue result → IsPrintedMass (pos mass +ℤ shift) }
{
    let least = -i128::from(u64::MAX);
    shift >= least && shift <= 0 || shift > 0 && i128::from(u64::MAX - mass) >= shift
}

/// Whether the masses of a cover's members with a shift are printed.
fn are_printed(cover: &Cover, shift: i128) -> bool
    ensures { IsTrue result → All (IsPrintedWith shift) (cover_members cover.now) }
{
    let (members, _) = cover.layer().split_at(cover.size() as usize);
    members
        .iter()
        .all(|member| is_printed(member.mass(), shift))
}

/// What the report of a formula's cover is to be, in one text and line by line.
#[derive(Clone, Copy)]
struct Envelope {
    formula: &'static [u8],
    coverage: u64,
    shift: i128,
    report: &'static [u8],
}

/// The cover of a formula.
fn cover(rt: &impl Abort, alloc: Global, text: &[u8], coverage: u64) -> Result<Cover, Fail> {
    let table = read_table(alloc, ELEMENTS)?;
    let formula = read_formula(alloc, &table, text)?;
    assert!(rt; formula.is_of(&table));
    assert!(rt; coverage >= 1);
    assert!(rt; coverage <= 999_999_000_000_000_000);
    Ok(cover_of(alloc, &table, &formula, coverage)?)
}

/// The lines of a cover, put one behind another.
fn lines_of(rt: &impl Abort, alloc: Global, cover: &Cover, shift: i128) -> Result<Vec<u8>, Fail> {
    let mut lines = envelope_head(alloc, cover)?;
    let (members, _) = cover.layer().split_at(cover.size() as usize);
    for member in members {
        assert!(rt; is_printed(member.mass(), shift));
        lines.extend_from_slice(&isotopologue_line(alloc, member, shift)?)?;
    }
    Ok(lines)
}

fn expect_envelope(rt: &impl Abort, alloc: Global, expected: Envelope) -> Result<(), Fail> {
    let cover = cover(rt, alloc, expected.formula, expected.coverage)?;
    assert!(rt; are_printed(&cover, expected.shift));
    let report = envelope_text(alloc, &cover, expected.shift)?;
    assert_eq!(rt; report.as_slice(), expected.report);
    let lines = lines_of(rt, alloc, &cover, expected.shift)?;
    assert_eq!(rt; lines.as_slice(), expected.report);
    Ok(())
}

#[test]
fn reports_of_covers_are_those_of_the_worked_rows(rt: HostRuntime) -> Result<(), Fail> {
    let pair = Envelope {
        formula: b"X2",
        coverage: 500_000_000_000_000_000,
        shift: 0,
        report: b"envelope X2
coverage 500000000000000000
size 1
bound 1
threshold 250000000000000000
isotopologue [10X][11X] 21.000000000000 500000000000000000 500000000000000000
",
    };
    let tie = Envelope {
        formula: b"X2",
        coverage: 750_000_000_000_000_000,
        shift: 0,
        report: b"envelope X2
coverage 750000000000000000
size 2
bound 2
threshold 125000000000000000
isotopologue [10X][11X] 21.000000000000 500000000000000000 500000000000000000
isotopologue [11X]2 22.000000000000 250000000000000000 250000000000000000
",
    };
    let dioxide = Envelope {
        formula: b"CO2",
        coverage: 990_000_000_000_000_000,
        shift: 0,
        report: b"envelope CO2
coverage 990000000000000000
size 2
bound 2
threshold 7691389404043515
isotopologue [12C][16O]2 43.989829239140 984497843717570000 984497843717570000
isotopologue [13C][16O]2 44.993184074210 10648061182430000 10648061182430000
",
    };
    let labelled = Envelope {
        formula: b"[13C]6",
        coverage: 500_000_000_000_000_000,
        shift: 0,
        report: b"envelope [13C]6
coverage 500000000000000000
size 1
bound 1
threshold 500000000000000000
isotopologue - 78.020129010420 1000000000000000000 1000000000000000000
",
    };
    // Rounding separates the size and the bound.
    let thirds = Envelope {
        formula: b"Y",
        coverage: 666_666_666_666_666_667,
        shift: 0,
        report: b"envelope Y
coverage 666666666666666667
size 3
bound 2
threshold 166666666666666667
isotopologue [22Y] 22.000000000000 333333333333333333 333333333333333334
isotopologue [21Y] 21.000000000000 333333333333333333 333333333333333334
isotopologue [20Y] 20.000000000000 333333333333333333 333333333333333334
",
    };
    // Less one electron, and more by one.
    let charged = Envelope {
        shift: -548_579_909,
        report: b"envelope X2
coverage 500000000000000000
size 1
bound 1
threshold 250000000000000000
isotopologue [10X][11X] 20.999451420091 500000000000000000 500000000000000000
",
        ..pair
    };
    let negative = Envelope {
        shift: 548_579_909,
        report: b"envelope X2
coverage 500000000000000000
size 1
bound 1
threshold 250000000000000000
isotopologue [10X][11X] 21.000548579909 500000000000000000 500000000000000000
",
        ..pair
    };
    let below_zero = Envelope {
        shift: -21_500_000_000_000,
        report: b"envelope X2
coverage 500000000000000000
size 1
bound 1
threshold 250000000000000000
isotopologue [10X][11X] -0.500000000000 500000000000000000 500000000000000000
",
        ..pair
    };
    for expected in [
        pair, tie, dioxide, labelled, thirds, charged, negative, below_zero,
    ] {
        expect_envelope(&rt, rt.alloc(), expected)?;
    }
    Ok(())
}

// 53 members, which are far more than the first room for a text.
#[test]
fn a_long_report_has_a_line_for_each_member(rt: HostRuntime) -> Result<(), Fail> {
    let alloc = rt.alloc();
    let cover = cover(&rt, alloc, b"C10000", 990_000_000_000_000_000)?;
    assert!(rt; are_printed(&cover, 0));
    let report = envelope_text(alloc, &cover, 0)?;
    let lines = report.iter().filter(|byte| **byte == b'\n').count();
    assert_eq!(rt; lines, 58);
    Ok(())
}

/// A formula's line: the mass and the ion's mass, the m/z and the divisor, and the text.
#[derive(Clone, Copy)]
struct Line {
    formula: &'static [u8],
    mass: u64,
    ion_mass: u64,
    mz: u64,
    divisor: u32,
    text: &'static [u8],
}

#[test]
fn lines_of_formulas_are_those_of_the_worked_rows(rt: HostRuntime) -> Result<(), Fail> {
    let alloc = rt.alloc();
    let table = read_table(alloc, ELEMENTS)?;
    let rows = [
        Line {
            formula: b"C6H12O6",
            mass: 180_063_388_104_180,
            ion_mass: 180_063_388_104_180,
            mz: 180_063_388_104_180,
            divisor: 1,
            text: b"formula C6H12O6 180.063388104180 180.063388104180 0\n",
        },
        Line {
            formula: b"C6H12O6",
            mass: 180_063_388_104_180,
            ion_mass: 203_052_608_806_271,
            mz: 203_052_600_000_000,
            divisor: 1,
            text: b"formula C6H12O6 180.063388104180 203.052608806271 8806271\n",
        },
        Line {
            formula: b"CH2O2",
            mass: 46_005_479_303_600,
            ion_mass: 29_002_191_071_891,
            mz: 29_038_576_581_241,
            divisor: 1,
            text: b"formula CH2O2 46.005479303600 29.002191071891 -36385509350\n",
        },
        Line {
            formula: b"[13C]O",
            mass: 0,
            ion_mass: 500_000_000_000,
            mz: 100_000_000_000_000,
            divisor: 2,
            text: b"formula [13C]O 0.000000000000 0.500000000000 -199500000000000\n",
        },
        Line {
            formula: b"O2",
            mass: u64::MAX,
            ion_mass: u64::MAX,
            mz: 1,
            divisor: 30,
            text: b"formula O2 18446744.073709551615 18446744.073709551615 18446744073709551585\n",
        },
        Line {
            formula: b"O2",
            mass: 1,
            ion_mass: 1,
            mz: u64::MAX,
            divisor: u32::MAX,
            text: b"formula O2 0.000000000001 0.000000000001 -79228162495817593515539431424\n",
        },
    ];
    for row in rows {
        let formula = read_formula(alloc, &table, row.formula)?;
        let ion_mass = i128::from(row.ion_mass);
        let line = formula_line(alloc, &formula, row.mass, ion_mass, row.mz, row.divisor)?;
        assert_eq!(rt; line.as_slice(), row.text);
    }
    Ok(())
}

#[test]
fn lines_of_ions_are_those_of_the_worked_rows(rt: HostRuntime) -> Result<(), Fail> {
    let alloc = rt.alloc();
    let table = read_table(alloc, ELEMENTS)?;
    let rows: &[(&[u8], &[u8], u64, &[u8])] = &[
        (
            b"M",
            b"C6H12O6",
            180_063_388_104_180,
            b"formula C6H12O6 180.063388104180 180.063388104180 0\n",
        ),
        (
            b"[M-H2O+H]+",
            b"C2H6O",
            29_038_576_581_241,
            b"formula C2H6O 46.041864812950 29.038576581241 0\n",
        ),
        (
            b"[M-H2O+H]+",
            b"CH2O2",
            29_038_576_581_241,
            b"formula CH2O2 46.005479303600 29.002191071891 -36385509350\n",
        ),
        (
            b"[2M+2H]2+",
            b"X",
            10_000_000_000_000,
            b"formula X 10.000000000000 22.014552904642 2014552904642\n",
        ),
    ];
    for (adduct, text, mz, expected) in rows {
        let adduct = read_adduct(alloc, &table, adduct)?;
        let formula = read_formula(alloc, &table, text)?;
        assert!(rt; formula.is_of(&table));
        assert!(rt; adduct.added().is_of(&table));
        assert!(rt; adduct.lost().is_of(&table));
        let ion = ion_of(alloc, &formula, &adduct)?;
        assert!(rt; ion.is_some());
        let line = decompose_line(alloc, &table, &formula, &adduct, *mz)?;
        assert_eq!(rt; line.as_slice(), *expected);
    }
    Ok(())
}

#[test]
fn lines_are_put_behind_one_another(rt: HostRuntime) -> Result<(), Fail> {
    let alloc = rt.alloc();
    let table = read_table(alloc, ELEMENTS)?;
    let formula = read_formula(alloc, &table, b"C6H12O6")?;
    let mut report = decompose_head(alloc, 1)?;
    assert_eq!(rt; report.as_slice(), b"decompose 1\n".as_slice());
    let peak = peak_line(alloc, 1, 180_063_388_104_180)?;
    assert_eq!(rt; peak.as_slice(), b"peak 1 180.063388104180\n".as_slice());
    push_peak_line(&mut report, 1, 180_063_388_104_180)?;
    push_formula_line(
        &mut report,
        &formula,
        180_063_388_104_180,
        180_063_388_104_180,
        180_063_388_104_180,
        1,
    )?;
    push_decompose_head(&mut report, 0)?;
    let expected = b"decompose 1
peak 1 180.063388104180
formula C6H12O6 180.063388104180 180.063388104180 0
decompose 0
";
    assert_eq!(rt; report.as_slice(), expected.as_slice());
    Ok(())
}
