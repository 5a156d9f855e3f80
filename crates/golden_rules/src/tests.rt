//! What no clause says: that files are read with ample memory, that they are read as the format is described, and that
//! the profile has the numbers of its lines.

use super::*;
use element_table::{Table, read_table};
use formula_text::read_formula;
use std::alloc::{AllocError, Global};
use std::process::Abort;
use std::test::Fail;

const ELEMENTS: &str = "symbol,number,mass,abundance,valence
e-,0,0.000548579909,0,0
H,1,1.00782503223,1,1
C,12,12,0.9893,4
C,13,13.00335483507,0.0107,4
N,14,14.00307400443,1,3
O,16,15.99491461957,1,2
P,31,30.97376199842,1,5
S,32,31.9720711744,1,6
Cl,35,34.968852682,1,1
";

/// The table of `ELEMENTS` and of these records.
fn table_with(alloc: Global, records: &str) -> Result<Table, Fail> {
    let text = format!(in alloc; "{ELEMENTS}{records}")?;
    Ok(read_table(alloc, text.as_bytes())?)
}

/// The number of the first rule that the formula of a text doesn't meet, 0 where it passes.
fn failing_rule(alloc: Global, table: &Table, rules: &Rules, formula: &str) -> Result<u32, Fail> {
    let formula = read_formula(alloc, table, formula.as_bytes())?;
    match rules.holds(table, &formula) {
        Verdict::Pass => Ok(0),
        Verdict::Fails { rule } => Ok(rule),
    }
}

/// Compares the numbers of the first rules that formulas don't meet with what they should be.
fn expect_failing(
    rt: &impl Abort,
    alloc: Global,
    table: &Table,
    rules: &Rules,
    cases: &[(&str, u32)],
) -> Result<(), Fail> {
    for (formula, expected) in cases {
        let failing = failing_rule(alloc, table, rules, formula)?;
        assert!(rt; failing == *expected, "{formula}: {failing}");
    }
    Ok(())
}

/// The words of the fault of a rules file, none where it is read.
fn words_of(alloc: Global, table: &Table, text: &str) -> Result<String, AllocError> {
    match read_rules(alloc, table, text.as_bytes()).err() {
        None => Ok(String::new(alloc)),
        Some(fault) => fault.words(alloc),
    }
}

#[test]
fn the_profile_has_the_numbers_of_its_lines(rt: HostRuntime) -> Result<(), Fail> {
    let alloc = rt.alloc();
    let table = table_with(alloc, "F,19,19,1,1\nBr,79,79,1,1\nSi,28,28,1,4\n")?;
    let rules = golden(alloc, &table)?;
    assert_eq!(rt; rules.rules().len(), 15);
    // A formula at each limit and one past it, as far as the other rules let them.
    let cases = [
        ("C6H12O6", 0),
        ("H2", 0),
        ("CH3", 1),
        ("C2H8", 1),
        ("CH4", 2),
        ("[13C]H4", 2),
        ("C10HN", 2),
        ("C10H2", 0),
        ("C10H5N13", 0),
        ("C10H4N14", 3),
        ("C10H10O12", 0),
        ("C10H10O13", 4),
        ("C10H13P3", 0),
        ("C10H12P4", 5),
        ("C10H20S8", 0),
        ("C10H20S9", 6),
        ("C10H7F15", 0),
        ("C10H6F16", 7),
        ("C10H12Cl8", 0),
        ("C10H13Cl9", 8),
        ("C10H14Br8", 0),
        ("C10H13Br9", 9),
        ("C10H24Si5", 0),
        ("C10H24Si6", 10),
        ("C20H30N2O2P2S2", 0),
        ("C20H30N10O2P2S2", 11),
        ("C30H30N2O20P2S2", 11),
        ("C20H30N2O2P4S2", 11),
        ("C30H30N2O2P2S3", 11),
        ("C30H32N4O4P4", 0),
        ("C30H31N11O4P4", 12),
        ("C30H30O13P2S2", 0),
        ("C30H30O14P2S2", 13),
        ("C30H30N4P2S2", 14),
        ("C60H64N18O7S7", 0),
        ("C60H63N19O7S7", 15),
        ("C60H64N8O13S7", 0),
        ("C60H64N8O14S7", 15),
        ("C60H64N8O7S8", 15),
    ];
    expect_failing(&rt, alloc, &table, &rules, cases.as_slice())?;
    // Without F, Br and Si their ratios are left out, and the groups are numbered from 8.
    let table = table_with(alloc, "")?;
    let rules = golden(alloc, &table)?;
    assert_eq!(rt; rules.rules().len(), 12);
    let cases = [
        ("C10H13Cl9", 7),
        ("C20H30N10O2P2S2", 8),
        ("C60H64N8O7S8", 12),
    ];
    expect_failing(&rt, alloc, &table, &rules, cases.as_slice())
}

#[test]
fn each_kind_of_rule_is_met_to_its_limits(rt: HostRuntime) -> Result<(), Fail> {
    let alloc = rt.alloc();
    let table = table_with(alloc, "")?;
    for (text, formula, expected) in [
        ("senior\n", "CH4", 0),
        ("senior\n", "CH3", 1),
        ("senior\n", "C2H8", 1),
        ("senior\n", "H2", 0),
        // The sum of 4 + 2 is below twice 4.
        ("senior\n", "CO", 1),
        ("senior\n", "H10000S10000", 0),
        ("ratio H C 3.1 4\n", "CH4", 0),
        ("ratio H C 0 3.999\n", "CH4", 1),
        ("ratio H C 4.001 5\n", "CH4", 1),
        ("ratio H C 4 4\n", "[13C]H4", 0),
        ("ratio H C 0 3.999\n", "[13C]H4", 1),
        ("ratio H C 0 0\n", "H4", 0),
        ("ratio C C 0 1000\n", "C10000", 0),
        ("group C 0 6\n", "C6H12O6", 1),
        ("group C 0 6\n", "C5H12O6", 0),
        ("group C 6 6\n", "C6", 0),
        ("group C 5 6\n", "C3[13C]3", 1),
        ("group C 0 6 N 0 3\n", "C7", 0),
        ("group C 0 6 N 0 3\n", "C7N", 1),
        ("unsaturation 2 2\n", "C6H12O6", 0),
        ("unsaturation 3 9\n", "C6H12O6", 1),
        ("unsaturation -5 1\n", "C6H12O6", 1),
        ("unsaturation -6 -6\n", "H8", 0),
        ("unsaturation -5 6\n", "H8", 1),
        ("unsaturation -0 6\n", "H8", 1),
        ("senior\nratio H C 0 1\nratio H C 0 1\n", "CH4", 2),
        ("# none\n", "H", 0),
        ("", "CH3", 0),
    ] {
        let rules = read_rules(alloc, &table, text.as_bytes())?;
        let failing = failing_rule(alloc, &table, &rules, formula)?;
        assert!(rt; failing == expected, "{text:?}, {formula}: {failing}");
    }
    assert_eq!(rt; failing_rule(alloc, &table, &Rules::none(alloc), "CH3")?, 0);
    Ok(())
}

#[test]
fn the_first_fault_is_told_with_its_line(rt: HostRuntime) -> Result<(), Fail> {
    let alloc = rt.alloc();
    let table = table_with(alloc, "")?;
    for (text, expected) in [
        ("# own\n\nratio H C 3 1\n", "line 3: empty range"),
        ("senior\r\nratio H C 3 1", "line 2: empty range"),
        ("senior\r", "line 1: bad line"),
        ("senior\r\r\n", "line 1: bad line"),
        ("\t senior \t\n  # x\n \t\n#senior\r\n", ""),
        ("senior x\n", "line 1: bad line"),
        ("Senior\n", "line 1: bad line"),
        ("\nratio H C 0\n", "line 2: bad line"),
        ("ratio H C 0 1000.000\n", ""),
        ("ratio H C 0 1000.001\n", "line 1: bad line"),
        ("ratio H C 0.5000 1\n", ""),
        ("ratio H C 0.0001 1\n", "line 1: bad line"),
        ("ratio H C 1 1\n", ""),
        ("ratio [13C] H 0 1\n", "line 1: bad line"),
        ("ratio Q C 3 1\n", "line 1: unknown symbol"),
        ("ratio C Q 3 x\n", "line 1: bad line"),
        ("group\n", "line 1: bad line"),
        ("group C 0\n", "line 1: bad line"),
        ("group C 00 10000\n", ""),
        ("group C 0 10001\n", "line 1: bad line"),
        (
            "group C 0 6 C 1 7 H 0 1 H 0 1 H 0 1 H 0 1 H 0 1 H 0 1\n",
            "",
        ),
        (
            "group C 0 6 C 1 7 H 0 1 H 0 1 H 0 1 H 0 1 H 0 1 H 0 1 H 0 1\n",
            "line 1: bad line",
        ),
        ("group C 1 2 Q 1 2\n", "line 1: unknown symbol"),
        ("group Q 1 x\n", "line 1: bad line"),
        ("unsaturation -100000 100000\n", ""),
        ("unsaturation -100001 1\n", "line 1: bad line"),
        ("unsaturation -00 0\n", ""),
        ("unsaturation 0 -1\n", "line 1: empty range"),
        ("unsaturation - 1\n", "line 1: bad line"),
        ("unsaturation +1 1\n", "line 1: bad line"),
        ("unsaturation --1 1\n", "line 1: bad line"),
        ("ratio C H 2 1\nx\n", "line 1: empty range"),
    ] {
        let words = words_of(alloc, &table, text)?;
        assert!(rt; words.as_str() == expected, "{text:?}: {words}");
    }
    Ok(())
}

#[test]
fn the_65th_rule_is_too_many_behind_faults_of_its_own(rt: HostRuntime) -> Result<(), Fail> {
    let alloc = rt.alloc();
    let table = table_with(alloc, "")?;
    let mut most = String::from_str(alloc, "# 64 rules\n")?;
    for _ in 0..64 {
        most.push_str("senior\n")?;
    }
    let rules = read_rules(alloc, &table, most.as_bytes())?;
    assert_eq!(rt; rules.rules().len(), 64);
    for (line, expected) in [
        ("senior\n", "line 66: too many"),
        ("# no rule\n\nsenior", "line 68: too many"),
        ("senor\n", "line 66: bad line"),
        ("ratio H Q 1 2\n", "line 66: unknown symbol"),
        ("ratio H C 2 1\n", "line 66: empty range"),
        ("\n", ""),
    ] {
        let text = format!(in alloc; "{most}{line}")?;
        assert_eq!(rt; words_of(alloc, &table, &text)?.as_str(), expected);
    }
    Ok(())
}
