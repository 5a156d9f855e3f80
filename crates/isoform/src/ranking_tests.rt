//! Whole runs of `rank` and `generate` over a shelf of small files.
use crate::rows::{AB, ELEMENTS, Failing, check_rows, refused, report, run_over};
use std::test::Fail;

/// Sixteen isotopes, of which a hundred atoms have too many isotopologues.
const Z: &[u8] = b"symbol,number,mass,abundance,valence
e-,0,0.000548579909,0,0
Z,30,30,0.05,1
Z,31,31,0.05,1
Z,32,32,0.05,1
Z,33,33,0.05,1
Z,34,34,0.05,1
Z,35,35,0.05,1
Z,36,36,0.05,1
Z,37,37,0.05,1
Z,38,38,0.05,1
Z,39,39,0.05,1
Z,40,40,0.05,1
Z,41,41,0.05,1
Z,42,42,0.05,1
Z,43,43,0.05,1
Z,44,44,0.05,1
Z,45,45,0.05,1
";

/// The files of each run, with their names.
const FILES: [(&str, &[u8]); 8] = [
    ("elements.csv", ELEMENTS),
    ("ab.csv", AB),
    ("z.csv", Z),
    (
        "x.csv",
        b"symbol,number,mass,abundance,valence\ne-,0,0.0005,0,0\nX,10,10,0.5,1\nX,11,11,0.5,1\n",
    ),
    ("empty.csv", b"mz,intensity\n"),
    ("two.csv", b"mz,intensity\n10,100\n20,50\n"),
    ("chlorine.csv", b"mz,intensity\n69.93825,600\n71.9353,400\n"),
    ("heavy.csv", b"mz,intensity\n30,1\n3000,1\n"),
];

/// The report of two jobs that are done.
const WHOLE: &[u8] = b"rank 2
job 1 10.000000000000 done 2
place 1 A 0 1 1
place 2 B 0 1 1
job 2 20.000000000000 done 3
place 1 A2 0 1 1
place 2 AB 0 1 1
place 3 B2 0 1 1
";

#[test]
fn jobs_take_turns(rt: HostRuntime) -> Result<(), Fail> {
    let rows = [
        report(
            "rank --table ab.csv --peaks two.csv --ppm 1 --alphabet AB --coverage 0.9 --turn 1 --turns 3",
            b"rank 2
job 1 10.000000000000 open 2
place 1 A 0 1 1
place 2 B 0 1 1
job 2 20.000000000000 open 1
place 1 A2 0 1 1
",
        ),
        report(
            "rank --table ab.csv --peaks two.csv --ppm 1 --alphabet AB --coverage 0.9",
            WHOLE,
        ),
        report(
            "rank --table ab.csv --peaks two.csv --ppm 1 --alphabet AB --coverage 0.9 --turns 0",
            b"rank 2\njob 1 10.000000000000 open 0\njob 2 20.000000000000 open 0\n",
        ),
        report(
            "rank --table ab.csv --peaks two.csv --ppm 1 --alphabet AB --coverage 0.9 --turn 2 --turns 3",
            b"rank 2
job 1 10.000000000000 done 2
place 1 A 0 1 1
place 2 B 0 1 1
job 2 20.000000000000 open 2
place 1 A2 0 1 1
place 2 AB 0 1 1
",
        ),
        report(
            "rank --table ab.csv --peaks two.csv --ppm 1 --alphabet AB --coverage 0.9 --turn 2 --turns 4",
            WHOLE,
        ),
    ];
    check_rows(&rt, rt.alloc(), FILES.as_slice(), &rows)?;
    Ok(())
}

#[test]
fn one_peak_of_a_list_is_ranked(rt: HostRuntime) -> Result<(), Fail> {
    let rows = [
        report(
            "rank --table elements.csv --peaks chlorine.csv --peak 1 --adduct [M]- --ppm 5 --alphabet Cl --coverage 0.9",
            b"rank 1\njob 1 69.938250000000 done 1\nplace 1 Cl2 18424832000000000 2 2\n",
        ),
        refused(
            "rank --table elements.csv --peaks chlorine.csv --peak 3 --adduct [M]- --ppm 5 --alphabet Cl --coverage 0.9",
            4,
            b"isoform: peaks: no peak 3\n",
        ),
        report(
            "rank --table ab.csv --peaks empty.csv --ppm 1 --alphabet AB --coverage 0.9",
            b"rank 0\n",
        ),
    ];
    check_rows(&rt, rt.alloc(), FILES.as_slice(), &rows)?;
    Ok(())
}

#[test]
fn stops_of_jobs_are_met_in_their_turns(rt: HostRuntime) -> Result<(), Fail> {
    let rows = [
        // The second job has the stop, which its first turn meets.
        refused(
            "rank --table z.csv --peaks heavy.csv --ppm 1 --alphabet Z --coverage 0.5",
            6,
            b"isoform: limit: layer of Z100\n",
        ),
        report(
            "rank --table z.csv --peaks heavy.csv --ppm 1 --alphabet Z --coverage 0.05 --turn 1 --turns 1",
            b"rank 2\njob 1 30.000000000000 open 1\nplace 1 Z 62500000000000000 1 1\njob 2 3000.000000000000 open 0\n",
        ),
    ];
    check_rows(&rt, rt.alloc(), FILES.as_slice(), &rows)?;
    Ok(())
}

#[test]
fn made_peaks_are_refused(rt: HostRuntime) -> Result<(), Fail> {
    let rows = [
        refused(
            "generate --table x.csv --number 1",
            5,
            b"isoform: alphabet: unknown symbol at 0\n",
        ),
        refused(
            "generate --table elements.csv --number 2147483648",
            2,
            b"isoform: value: --number\n",
        ),
    ];
    check_rows(&rt, rt.alloc(), FILES.as_slice(), &rows)?;
    Ok(())
}

#[test]
fn each_made_formula_is_found(rt: HostRuntime) -> Result<(), Fail> {
    let end = run_over(
        rt.alloc(),
        FILES.as_slice(),
        "generate --table elements.csv --number 1",
        Failing::Nothing,
    )?;
    assert_eq!(rt; end.status, 0);
    let mut lines = end.out.bytes().split(|byte| *byte == b'\n');
    assert_eq!(rt; lines.next(), Some(b"generate 1".as_slice()));
    assert_eq!(rt; lines.next(), Some(b"peaks 200".as_slice()));
    assert_eq!(rt; lines.nth(2), Some(b"found 200".as_slice()));
    Ok(())
}
