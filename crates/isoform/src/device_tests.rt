//! Whole runs of each command in which one call of a device fails: each fetch in turn, each put with no byte, one byte and
//! all bytes but the last taken, and the note.
use crate::rows::{AB, ELEMENTS, Failing, Row, check_rows, run_over};
use std::alloc::{AllocError, Global};
use std::process::Abort;
use std::test::Fail;

/// The files of each run, with their names.
const FILES: [(&str, &[u8]); 9] = [
    ("elements.csv", ELEMENTS),
    ("ab.csv", AB),
    (
        "x.csv",
        b"symbol,number,mass,abundance,valence\ne-,0,0.0005,0,0\nX,10,10,0.5,1\nX,11,11,0.5,1\n",
    ),
    (
        "tracer.csv",
        b"symbol,number,abundance12\nX,10,0.25\nX,11,0.75\n",
    ),
    ("two.csv", b"mz,intensity\n10,100\n20,50\n"),
    ("own.rules", b"ratio A B 0 4\n"),
    (
        "whole",
        b"isoform certificate 1\nformula X2\ncoverage 750000000000000000\nsize 2\nbound 2\n\
          threshold 125000000000000000\ncover [10X][11X]\ncover [11X]2\nlayer [10X]2\nend\n",
    ),
    (
        "open",
        b"isoform certificate 1\nformula X2\ncoverage 750000000000000000\nsize 2\nbound 2\n\
          threshold 125000000000000000\ncover [10X][11X]\ncover [11X]2\nend\n",
    ),
    ("one.csv", b"mz,intensity\n10,100\n"),
];

/// The words of runs that end with a report, and the names that each asks for, in their order.
const RUNS: [(&str, &[&str]); 12] = [
    (
        "decompose --table ab.csv --mass 10 --da 0.00001 --alphabet AB",
        &["ab.csv"],
    ),
    (
        "decompose --table ab.csv --peaks two.csv --ppm 1 --alphabet AB --rules own.rules",
        &["ab.csv", "two.csv", "own.rules"],
    ),
    (
        "decompose --table ab.csv --peaks two.csv --ppm 1 --alphabet AB --json",
        &["ab.csv", "two.csv"],
    ),
    (
        "envelope --table x.csv --formula X2 --coverage 0.75",
        &["x.csv"],
    ),
    (
        "envelope --table x.csv --tracer tracer.csv --formula X2 --coverage 0.75",
        &["x.csv", "tracer.csv"],
    ),
    (
        "envelope --table x.csv --formula X2 --coverage 0.75 --certificate",
        &["x.csv"],
    ),
    (
        "envelope --table elements.csv --formula CO2 --coverage 0.99 --json",
        &["elements.csv"],
    ),
    (
        "check --table x.csv --certificate whole",
        &["x.csv", "whole"],
    ),
    (
        "rank --table ab.csv --peaks two.csv --ppm 1 --alphabet AB --coverage 0.9",
        &["ab.csv", "two.csv"],
    ),
    (
        "rank --table ab.csv --peaks two.csv --ppm 1 --alphabet AB --rules own.rules --coverage 0.9 --turn 1 --turns 3",
        &["ab.csv", "two.csv", "own.rules"],
    ),
    (
        "rank --table ab.csv --peaks one.csv --ppm 1 --alphabet AB --coverage 0.9 --json",
        &["ab.csv", "one.csv"],
    ),
    (
        "generate --table elements.csv --number 1",
        &["elements.csv"],
    ),
];

#[test]
fn each_fetch_may_fail(rt: HostRuntime) -> Result<(), Fail> {
    for (words, names) in RUNS {
        for (place, name) in names.iter().enumerate() {
            check_fetch(&rt, rt.alloc(), words, place as u64 + 1, name)?;
        }
        check_last_fetch(&rt, rt.alloc(), words, names.len() as u64)?;
    }
    Ok(())
}

/// The fetch of this number fails: the note names the file, and nothing is put.
fn check_fetch(
    rt: &impl Abort,
    alloc: Global,
    words: &str,
    call: u64,
    name: &str,
) -> Result<(), AllocError> {
    let end = run_over(alloc, FILES.as_slice(), words, Failing::Fetch(call))?;
    assert!(rt; end.status == 7, "{words}");
    assert!(rt; end.out.bytes().is_empty(), "{words}");
    let note = format!(in alloc; "isoform: read fault: {name}\n")?;
    assert!(rt; end.notes.bytes() == note.as_bytes(), "{words}");
    Ok(())
}

/// There are no more fetches than these.
fn check_last_fetch(
    rt: &impl Abort,
    alloc: Global,
    words: &str,
    fetches: u64,
) -> Result<(), AllocError> {
    let failing = Failing::Fetch(fetches.saturating_add(1));
    let end = run_over(alloc, FILES.as_slice(), words, failing)?;
    assert!(rt; end.status == 0, "{words}");
    Ok(())
}

#[test]
fn each_put_may_fail(rt: HostRuntime) -> Result<(), Fail> {
    for (words, _) in RUNS {
        check_puts(&rt, rt.alloc(), words)?;
    }
    Ok(())
}

/// Each line of the report of these words is a put that may fail.
fn check_puts(rt: &impl Abort, alloc: Global, words: &str) -> Result<(), AllocError> {
    let whole = run_over(alloc, FILES.as_slice(), words, Failing::Nothing)?;
    assert!(rt; whole.status == 0, "{words}");
    let report = whole.out.bytes();
    let mut start = 0;
    let mut call: u64 = 0;
    for (place, byte) in report.iter().enumerate() {
        if *byte == b'\n' {
            call = call.saturating_add(1);
            check_line(rt, alloc, words, report, call, start, place)?;
            start = place.saturating_add(1);
        }
    }
    assert!(rt; call > 0 && start == report.len(), "{words}");
    Ok(())
}

/// The put of the line from one place of the report to another fails with no byte, one byte and all but the last taken.
fn check_line(
    rt: &impl Abort,
    alloc: Global,
    words: &str,
    report: &[u8],
    call: u64,
    start: usize,
    end: usize,
) -> Result<(), AllocError> {
    for taken in [0, 1, end.saturating_sub(start)] {
        let received = start.saturating_add(taken).min(report.len());
        check_put(rt, alloc, words, call, taken as u64, &report[..received])?;
    }
    Ok(())
}

/// The put of this number fails once it took so many bytes: these and the lines before are in the output.
fn check_put(
    rt: &impl Abort,
    alloc: Global,
    words: &str,
    call: u64,
    taken: u64,
    received: &[u8],
) -> Result<(), AllocError> {
    let end = run_over(alloc, FILES.as_slice(), words, Failing::Put { call, taken })?;
    assert!(rt; end.status == 8, "put {call}: {words}");
    assert!(rt; end.out.bytes() == received, "put {call}: {words}");
    assert!(rt;
        end.notes.bytes() == b"isoform: write fault\n".as_slice(),
        "{words}"
    );
    Ok(())
}

// A note that can't be told changes no status.
#[test]
fn a_note_may_fail(rt: HostRuntime) -> Result<(), Fail> {
    let rows = [
        Row {
            words: "decompose --table absent.csv --mass 10 --da 0.00001 --alphabet AB",
            failing: Failing::Note { taken: 9 },
            status: 7,
            out: b"",
            note: b"isoform: ",
        },
        Row {
            words: "envelope --table x.csv --formula Q --coverage 0.75",
            failing: Failing::Note { taken: 0 },
            status: 5,
            out: b"",
            note: b"",
        },
        Row {
            words: "check --table x.csv --certificate open",
            failing: Failing::Note { taken: 0 },
            status: 1,
            out: b"",
            note: b"",
        },
        Row {
            words: "rank --table ab.csv --peaks two.csv --ppm 1 --alphabet ABQ --coverage 0.9",
            failing: Failing::Note { taken: 1 },
            status: 5,
            out: b"",
            note: b"i",
        },
    ];
    check_rows(&rt, rt.alloc(), FILES.as_slice(), &rows)?;
    Ok(())
}
