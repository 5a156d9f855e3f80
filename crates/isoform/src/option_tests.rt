//! Whole runs over a shelf of small files: peaks, tolerances, adducts, rules, pages and tracers, and what of these is
//! refused.
use crate::rows::{AB, ELEMENTS, EQUAL, LIGHT, check_rows, refused, report};
use std::test::Fail;

/// Rules that only formulas of one symbol meet.
const ONE_SYMBOL: &[u8] =
    b"ratio A D 0 0\nratio B D 0 0\nratio C D 0 0\nratio A C 0 0\nratio B C 0 0\nratio A B 0 0\n";

/// The files of each run, with their names.
const FILES: [(&str, &[u8]); 19] = [
    ("elements.csv", ELEMENTS),
    ("ab.csv", AB),
    ("equal.csv", EQUAL),
    ("light.csv", LIGHT),
    ("bad.csv", b"symbol\n"),
    ("empty.csv", b"mz,intensity\n"),
    ("two.csv", b"mz,intensity\n10,100\n20,50\n"),
    ("sugar.csv", b"mz,intensity\r\n203.0526,125000\r\n"),
    ("no.csv", b"mz,intensity\n10,x\n"),
    ("zero.csv", b"mz,intensity\n0,1\n"),
    ("many.csv", b"mz,intensity\n1,1\n100,1\n"),
    ("c.txt", b"group C 0 6\n"),
    ("own.txt", b"# own\n\nratio H C 3 1\n"),
    ("odd.txt", b"seniors\n"),
    ("few.txt", ONE_SYMBOL),
    (
        "tracer.csv",
        b"symbol,number,abundance12\nX,10,0.25\nX,11,0.75\n",
    ),
    ("other.csv", b"symbol,number,abundance12\nX,12,1\n"),
    ("weightless.csv", b"symbol,number,abundance12\nX,10,0\n"),
    ("none", b"senior\n"),
];

#[test]
fn the_formulas_of_each_peak_are_within_its_tolerance(rt: HostRuntime) -> Result<(), Fail> {
    let rows = [
        // No peak, and two.
        report(
            "decompose --table elements.csv --peaks empty.csv --ppm 5 --adduct [M+H]+ --alphabet CHNO",
            b"decompose 0\n",
        ),
        report(
            "decompose --table ab.csv --peaks two.csv --ppm 1 --alphabet AB",
            b"decompose 2
peak 1 10.000000000000
formula A 10.000000000000 10.000000000000 0
formula B 10.000010000000 10.000010000000 10000000
peak 2 20.000000000000
formula A2 20.000000000000 20.000000000000 0
formula AB 20.000010000000 20.000010000000 10000000
formula B2 20.000020000000 20.000020000000 20000000
",
        ),
        // B lies exactly at the tolerance.
        report(
            "decompose --table ab.csv --mass 10 --ppm 1 --alphabet AB",
            b"decompose 1
peak 1 10.000000000000
formula A 10.000000000000 10.000000000000 0
formula B 10.000010000000 10.000010000000 10000000
",
        ),
        // Both symbols have one mass.
        report(
            "decompose --table ab.csv --mass 10 --ppm 1 --alphabet A[10A]",
            b"decompose 1
peak 1 10.000000000000
formula [10A] 10.000000000000 10.000000000000 0
formula A 10.000000000000 10.000000000000 0
",
        ),
        // A is outside the tolerance of its own mass, and inside that of the measured one.
        report(
            "decompose --table ab.csv --mass 10.000010000001 --ppm 1 --alphabet AB",
            b"decompose 1
peak 1 10.000010000001
formula A 10.000000000000 10.000000000000 -10000001
formula B 10.000010000000 10.000010000000 -1
",
        ),
        report(
            "decompose --table ab.csv --mass 10.000010000001 --ppm-calc 1 --alphabet AB",
            b"decompose 1
peak 1 10.000010000001
formula B 10.000010000000 10.000010000000 -1
",
        ),
        report(
            "decompose --table ab.csv --mass 10.00001 --ppm-calc 1 --alphabet AB",
            b"decompose 1
peak 1 10.000010000000
formula A 10.000000000000 10.000000000000 -10000000
formula B 10.000010000000 10.000010000000 0
",
        ),
    ];
    check_rows(&rt, rt.alloc(), FILES.as_slice(), &rows)?;
    Ok(())
}

#[test]
fn formulas_have_the_ion_asked_for_and_meet_the_rules(rt: HostRuntime) -> Result<(), Fail> {
    let rows = [
        // C3H10 has no O to lose.
        report(
            "decompose --table elements.csv --mass 29.038576581241 --da 0.04 --adduct [M-H2O+H]+ --alphabet CHO",
            b"decompose 1
peak 1 29.038576581241
formula C2H6O 46.041864812950 29.038576581241 0
formula CH2O2 46.005479303600 29.002191071891 -36385509350
",
        ),
        report(
            "decompose --table elements.csv --peaks sugar.csv --adduct [M+Na]+ --ppm 5 --alphabet CHO --rules golden",
            b"decompose 1
peak 1 203.052600000000
formula C6H12O6 180.063388104180 203.052608806271 8806271
",
        ),
        // Ranges, and a rule of a file, leave out glucose; the word `none` is no file's name.
        report(
            "decompose --table elements.csv --mass 180.06338810418 --da 0 --alphabet C0-5H0-100O0-100",
            b"decompose 1\npeak 1 180.063388104180\n",
        ),
        report(
            "decompose --table elements.csv --mass 180.06338810418 --da 0 --alphabet CHO --rules c.txt",
            b"decompose 1\npeak 1 180.063388104180\n",
        ),
        report(
            "decompose --table elements.csv --mass 180.06338810418 --da 0 --alphabet C0-6H0-100O0-100",
            b"decompose 1
peak 1 180.063388104180
formula C6H12O6 180.063388104180 180.063388104180 0
",
        ),
        report(
            "decompose --table ab.csv --mass 10 --da 0 --alphabet AB --rules none",
            b"decompose 1\npeak 1 10.000000000000\nformula A 10.000000000000 10.000000000000 0\n",
        ),
        // The masses of an ion's isotopologues are less the electrons taken off.
        report(
            "envelope --table elements.csv --formula CH4 --adduct [M+H]+ --coverage 0.5",
            b"envelope CH5
coverage 500000000000000000
size 1
bound 1
threshold 494365641659939925
isotopologue [12C][1H]5 17.038576581241 988731283319879847 988731283319879850
",
        ),
        report(
            "envelope --table equal.csv --formula X2 --adduct M --tracer tracer.csv --coverage 0.75",
            b"envelope X2
coverage 750000000000000000
size 2
bound 2
threshold 281250000000000000
isotopologue [11X]2 22.000000000000 562500000000000000 562500000000000000
isotopologue [10X][11X] 21.000000000000 375000000000000000 375000000000000000
",
        ),
    ];
    check_rows(&rt, rt.alloc(), FILES.as_slice(), &rows)?;
    Ok(())
}

#[test]
fn a_page_begins_behind_its_token_and_ends_at_its_limit(rt: HostRuntime) -> Result<(), Fail> {
    let rows = [
        report(
            "decompose --table ab.csv --mass 10 --ppm 1 --alphabet AB --limit 1",
            b"decompose 1\npeak 1 10.000000000000\nformula A 10.000000000000 10.000000000000 0\n",
        ),
        report(
            "decompose --table ab.csv --mass 10 --ppm 1 --alphabet AB --limit 1 --after A",
            b"decompose 1\npeak 1 10.000000000000\nformula B 10.000010000000 10.000010000000 10000000\n",
        ),
        report(
            "decompose --table ab.csv --mass 10 --ppm 1 --alphabet AB --after B",
            b"decompose 1\npeak 1 10.000000000000\n",
        ),
        // A token needn't be one of the formulas.
        report(
            "decompose --table ab.csv --mass 10 --ppm 1 --alphabet AB --after A10000",
            b"decompose 1\npeak 1 10.000000000000\nformula B 10.000010000000 10.000010000000 10000000\n",
        ),
        refused(
            "decompose --table ab.csv --mass 10 --ppm 1 --alphabet AB --after A20000",
            5,
            b"isoform: after: too many atoms\n",
        ),
        refused(
            "decompose --table ab.csv --mass 10 --ppm 1 --alphabet AB --after a",
            5,
            b"isoform: after: bad text at 0\n",
        ),
        refused(
            "decompose --table ab.csv --mass 10 --ppm 1 --alphabet A --after B",
            5,
            b"isoform: after: not in box\n",
        ),
        refused(
            "decompose --table ab.csv --mass 10 --ppm 1 --alphabet A2-5B --after B",
            5,
            b"isoform: after: not in box\n",
        ),
        // Where so many are asked for, a peak may have more than the limit; a token leaves out those before it.
        report(
            "decompose --table light.csv --mass 100 --da 0 --alphabet ABCD --limit 2",
            b"decompose 1
peak 1 100.000000000000
formula D200 100.000000000000 100.000000000000 0
formula CD199 100.000000000000 100.000000000000 0
",
        ),
        report(
            "decompose --table light.csv --mass 100 --da 0 --alphabet ABCD --after A199D",
            b"decompose 1\npeak 1 100.000000000000
formula CA199 100.000000000000 100.000000000000 0
formula A199B 100.000000000000 100.000000000000 0
formula A200 100.000000000000 100.000000000000 0
",
        ),
        // The limit counts what meets the rules, and not all that is within tolerance.
        report(
            "decompose --table light.csv --mass 100 --da 0 --alphabet ABCD --rules few.txt",
            b"decompose 1\npeak 1 100.000000000000
formula D200 100.000000000000 100.000000000000 0
formula C200 100.000000000000 100.000000000000 0
formula B200 100.000000000000 100.000000000000 0
formula A200 100.000000000000 100.000000000000 0
",
        ),
        refused(
            "decompose --table light.csv --peaks many.csv --da 0 --alphabet ABCD",
            6,
            b"isoform: limit: candidates of peak 2\n",
        ),
    ];
    check_rows(&rt, rt.alloc(), FILES.as_slice(), &rows)?;
    Ok(())
}

#[test]
fn what_a_request_names_is_refused_in_order(rt: HostRuntime) -> Result<(), Fail> {
    let rows = [
        refused(
            "decompose --table bad.csv --peaks no.csv --ppm 1 --alphabet CHC",
            3,
            b"isoform: table: record 1: header\n",
        ),
        refused(
            "decompose --table elements.csv --peaks no.csv --ppm 1 --alphabet CHC",
            4,
            b"isoform: peaks: record 2: intensity\n",
        ),
        refused(
            "decompose --table elements.csv --peaks zero.csv --ppm 1 --alphabet CHC",
            4,
            b"isoform: peaks: record 2: mz\n",
        ),
        refused(
            "decompose --table elements.csv --mass 1 --ppm 1 --alphabet CHC --adduct [M+H]31+",
            5,
            b"isoform: alphabet: repeated at 2\n",
        ),
        refused(
            "decompose --table elements.csv --mass 1 --ppm 1 --alphabet CH --adduct [M+H]31+ --rules own.txt",
            5,
            b"isoform: adduct: charge\n",
        ),
        refused(
            "decompose --table elements.csv --mass 1 --ppm 1 --alphabet CH --rules own.txt --after a",
            5,
            b"isoform: rules: line 3: empty range\n",
        ),
        refused(
            "decompose --table elements.csv --mass 1 --ppm 1 --alphabet CH --rules odd.txt",
            5,
            b"isoform: rules: line 1: bad line\n",
        ),
        refused(
            "envelope --table equal.csv --tracer other.csv --formula q --coverage 0.5 --adduct q",
            3,
            b"isoform: tracer: record 2: mass number\n",
        ),
        refused(
            "envelope --table equal.csv --tracer weightless.csv --formula X --coverage 0.5",
            3,
            b"isoform: tracer: no weight: X\n",
        ),
        refused(
            "envelope --table elements.csv --formula q --coverage 0.5 --adduct q",
            5,
            b"isoform: adduct: bad text at 0\n",
        ),
        refused(
            "envelope --table elements.csv --formula q --coverage 0.5 --adduct [M-H]+",
            5,
            b"isoform: formula: bad text at 0\n",
        ),
        refused(
            "envelope --table elements.csv --formula C --adduct [M-H]+ --coverage 0.9",
            5,
            b"isoform: ion: not defined\n",
        ),
        refused(
            "decompose --table ab.csv --mass 10 --ppm 1 --ppm-calc 1 --alphabet AB",
            2,
            b"isoform: words\n",
        ),
        refused(
            "decompose --table ab.csv --peaks two.csv --ppm 1 --alphabet AB --limit 1",
            2,
            b"isoform: words\n",
        ),
        refused(
            "decompose --table ab.csv --mass 10 --ppm 1 --alphabet AB --limit 0",
            2,
            b"isoform: value: --limit\n",
        ),
    ];
    check_rows(&rt, rt.alloc(), FILES.as_slice(), &rows)?;
    Ok(())
}
