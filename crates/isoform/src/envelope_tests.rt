//! Whole runs of `envelope`: the worked examples, and what is refused.
use crate::rows::{ELEMENTS, EQUAL, check_rows, refused, report};
use std::test::Fail;

/// Sixteen isotopes of equal weight.
const SIXTEEN: &[u8] = b"symbol,number,mass,abundance,valence
e-,0,0.000548579909,0,0
Z,30,30,0.05,1
Z,31,31,0.05,1
Z,32,32,0.05,1
Z,33,33,0.05,1
Z,34,34,0.05,1
Z,35,35,0.05,1
Z,36,36,0.05,1
Z,37,37,0.05,1
Z,38,38,0.05,1
Z,39,39,0.05,1
Z,40,40,0.05,1
Z,41,41,0.05,1
Z,42,42,0.05,1
Z,43,43,0.05,1
Z,44,44,0.05,1
Z,45,45,0.05,1
";

/// Six isotopes of equal weight.
const SIX: &[u8] = b"symbol,number,mass,abundance,valence
e-,0,0.000548579909,0,0
V,60,60,0.1,1
V,61,61,0.1,1
V,62,62,0.1,1
V,63,63,0.1,1
V,64,64,0.1,1
V,65,65,0.1,1
";

/// Abundances of 12 decimals.
const FINE: &[u8] = b"symbol,number,mass,abundance12,valence
e-,0,0.000548579909,0,0
Q,1,1,0.000000000001,1
Q,2,2,0.999999999999,1
";

/// The same with the header of version 1.
const FINE_OF_VERSION_1: &[u8] = b"symbol,number,mass,abundance,valence
e-,0,0.000548579909,0,0
Q,1,1,0.000000000001,1
Q,2,2,0.999999999999,1
";

/// The files of each run, with their names.
const FILES: [(&str, &[u8]); 7] = [
    ("elements.csv", ELEMENTS),
    ("equal.csv", EQUAL),
    ("sixteen.csv", SIXTEEN),
    ("six.csv", SIX),
    ("fine.csv", FINE),
    ("coarse.csv", FINE_OF_VERSION_1),
    ("empty.csv", b""),
];

#[test]
fn a_cover_reaches_the_coverage_and_ties_stand_in_order(rt: HostRuntime) -> Result<(), Fail> {
    let rows = [
        // The mode alone has the coverage.
        report(
            "envelope --table equal.csv --formula X2 --coverage 0.5",
            b"envelope X2
coverage 500000000000000000
size 1
bound 1
threshold 250000000000000000
isotopologue [10X][11X] 21.000000000000 500000000000000000 500000000000000000
",
        ),
        // The outer two tie, and stand in lexicographic order.
        report(
            "envelope --table equal.csv --formula X2 --coverage 0.75",
            b"envelope X2
coverage 750000000000000000
size 2
bound 2
threshold 125000000000000000
isotopologue [10X][11X] 21.000000000000 500000000000000000 500000000000000000
isotopologue [11X]2 22.000000000000 250000000000000000 250000000000000000
",
        ),
        // The greatest coverage, and the least.
        report(
            "envelope --table equal.csv --formula X2 --coverage 0.999999",
            b"envelope X2
coverage 999999000000000000
size 3
bound 3
threshold 125000000000000000
isotopologue [10X][11X] 21.000000000000 500000000000000000 500000000000000000
isotopologue [11X]2 22.000000000000 250000000000000000 250000000000000000
isotopologue [10X]2 20.000000000000 250000000000000000 250000000000000000
",
        ),
        report(
            "envelope --table equal.csv --formula X2 --coverage 0.000000000000000001",
            b"envelope X2
coverage 1
size 1
bound 1
threshold 250000000000000000
isotopologue [10X][11X] 21.000000000000 500000000000000000 500000000000000000
",
        ),
        // The lower bounds of two thirds just miss the coverage.
        report(
            "envelope --table equal.csv --formula Y --coverage 0.666666666666666667",
            b"envelope Y
coverage 666666666666666667
size 3
bound 2
threshold 166666666666666667
isotopologue [22Y] 22.000000000000 333333333333333333 333333333333333334
isotopologue [21Y] 21.000000000000 333333333333333333 333333333333333334
isotopologue [20Y] 20.000000000000 333333333333333333 333333333333333334
",
        ),
        // The isotope of weight 0 takes no part.
        report(
            "envelope --table equal.csv --formula V2 --coverage 0.9",
            b"envelope V2
coverage 900000000000000000
size 2
bound 2
threshold 281250000000000000
isotopologue [32V]2 64.000000000000 562500000000000000 562500000000000000
isotopologue [30V][32V] 62.000000000000 375000000000000000 375000000000000000
",
        ),
    ];
    check_rows(&rt, rt.alloc(), FILES.as_slice(), &rows)?;
    Ok(())
}

#[test]
fn a_cover_is_of_the_whole_formula_with_the_weights_of_its_table(
    rt: HostRuntime,
) -> Result<(), Fail> {
    let rows = [
        // Two elements.
        report(
            "envelope --table elements.csv --formula CO2 --coverage 0.99",
            b"envelope CO2
coverage 990000000000000000
size 2
bound 2
threshold 7691389404043515
isotopologue [12C][16O]2 43.989829239140 984497843717570000 984497843717570000
isotopologue [13C][16O]2 44.993184074210 10648061182430000 10648061182430000
",
        ),
        // Items that repeat are added up, and printed in Hill order.
        report(
            "envelope --table elements.csv --formula O0COO --coverage 0.9",
            b"envelope CO2
coverage 900000000000000000
size 1
bound 1
threshold 492248921858785000
isotopologue [12C][16O]2 43.989829239140 984497843717570000 984497843717570000
",
        ),
        // Labelled atoms are in the formula and the mass, and not in the isotopologue's text.
        report(
            "envelope --table elements.csv --formula [13C]6O --coverage 0.99",
            b"envelope [13C]6O
coverage 990000000000000000
size 1
bound 1
threshold 498785000000000000
isotopologue [16O] 94.015043629990 997570000000000000 997570000000000000
",
        ),
        report(
            "envelope --table elements.csv --formula [013C]6 --coverage 0.5",
            b"envelope [13C]6
coverage 500000000000000000
size 1
bound 1
threshold 500000000000000000
isotopologue - 78.020129010420 1000000000000000000 1000000000000000000
",
        ),
        // Size and bound differ: three of six equal isotopes have the half, but not by their lower bounds.
        report(
            "envelope --table six.csv --formula V --coverage 0.5",
            b"envelope V
coverage 500000000000000000
size 4
bound 3
threshold 83333333333333333
isotopologue [65V] 65.000000000000 166666666666666666 166666666666666667
isotopologue [64V] 64.000000000000 166666666666666666 166666666666666667
isotopologue [63V] 63.000000000000 166666666666666666 166666666666666667
isotopologue [62V] 62.000000000000 166666666666666666 166666666666666667
",
        ),
        // A table of version 2.
        report(
            "envelope --table fine.csv --formula Q --coverage 0.5",
            b"envelope Q
coverage 500000000000000000
size 1
bound 1
threshold 499999999999500000
isotopologue [2Q] 2.000000000000 999999999999000000 999999999999000000
",
        ),
    ];
    check_rows(&rt, rt.alloc(), FILES.as_slice(), &rows)?;
    Ok(())
}

#[test]
fn a_coverage_out_of_range_and_other_words_are_refused(rt: HostRuntime) -> Result<(), Fail> {
    for words in [
        "envelope --table empty.csv --formula H0 --coverage 0",
        "envelope --table empty.csv --formula H0 --coverage 0.9999991",
        "envelope --table empty.csv --formula H0 --coverage 1",
        "envelope --table empty.csv --formula H0 --coverage 0.0000000000000000001",
        "envelope --table empty.csv --formula H0 --coverage 0.5.",
        "envelope --table empty.csv --formula H0 --coverage half",
        "envelope --table empty.csv --formula H0 --coverage 1000000000000000000000",
    ] {
        let row = refused(words, 2, b"isoform: value: --coverage\n");
        check_rows(&rt, rt.alloc(), FILES.as_slice(), &[row])?;
    }
    // A value that begins with a minus sign, one that is empty, and one word more.
    for words in [
        "envelope --table elements.csv --formula C --coverage -0.5",
        "envelope --table elements.csv --formula  --coverage 0.5",
        "envelope --table elements.csv --formula C --coverage 0.5 more",
    ] {
        let row = refused(words, 2, b"isoform: words\n");
        check_rows(&rt, rt.alloc(), FILES.as_slice(), &[row])?;
    }
    Ok(())
}

#[test]
fn a_formula_with_a_fault_is_refused(rt: HostRuntime) -> Result<(), Fail> {
    let rows = [
        refused(
            "envelope --table elements.csv --formula H0 --coverage 0.5",
            5,
            b"isoform: formula: empty\n",
        ),
        refused(
            "envelope --table elements.csv --formula Qa --coverage 0.5",
            5,
            b"isoform: formula: unknown symbol at 0\n",
        ),
        refused(
            "envelope --table elements.csv --formula COQa --coverage 0.5",
            5,
            b"isoform: formula: unknown symbol at 2\n",
        ),
        refused(
            "envelope --table elements.csv --formula C2h --coverage 0.5",
            5,
            b"isoform: formula: bad text at 2\n",
        ),
        refused(
            "envelope --table elements.csv --formula [14C] --coverage 0.5",
            5,
            b"isoform: formula: unknown isotope at 0\n",
        ),
        refused(
            "envelope --table elements.csv --formula O[0C] --coverage 0.5",
            5,
            b"isoform: formula: unknown isotope at 1\n",
        ),
        refused(
            "envelope --table elements.csv --formula [13C --coverage 0.5",
            5,
            b"isoform: formula: bad text at 4\n",
        ),
        refused(
            "envelope --table elements.csv --formula 2C --coverage 0.5",
            5,
            b"isoform: formula: bad text at 0\n",
        ),
        refused(
            "envelope --table elements.csv --formula C10001 --coverage 0.5",
            5,
            b"isoform: formula: too many atoms\n",
        ),
        refused(
            "envelope --table elements.csv --formula C10000H10000O --coverage 0.5",
            5,
            b"isoform: formula: too many atoms\n",
        ),
        refused(
            "envelope --table elements.csv --formula H99999999999999999999 --coverage 0.5",
            5,
            b"isoform: formula: too many atoms\n",
        ),
    ];
    check_rows(&rt, rt.alloc(), FILES.as_slice(), &rows)?;
    Ok(())
}

#[test]
fn a_table_with_a_fault_comes_before_the_formula_and_layers_last(
    rt: HostRuntime,
) -> Result<(), Fail> {
    let rows = [
        refused(
            "envelope --table empty.csv --formula H0 --coverage 0.5",
            3,
            b"isoform: table: record 1: header\n",
        ),
        refused(
            "envelope --table coarse.csv --formula H0 --coverage 0.5",
            3,
            b"isoform: table: record 3: abundance\n",
        ),
        // A layer of more than 1,048,576 isotopologues.
        refused(
            "envelope --table sixteen.csv --formula Z100 --coverage 0.5",
            6,
            b"isoform: limit: layer of Z100\n",
        ),
    ];
    check_rows(&rt, rt.alloc(), FILES.as_slice(), &rows)?;
    Ok(())
}
