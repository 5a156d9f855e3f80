//! Whole runs of `decompose` at one mass: the worked examples, words and files.
use crate::finish;
use crate::rows::{AB, ELEMENTS, Failing, LIGHT, check_rows, refused, report, run_over};
use outside_ports::{MemorySink, StreamSink};
use std::io::{self, ErrorKind, Write};
use std::test::Fail;

/// The files of each run, with their names.
const FILES: [(&str, &[u8]); 8] = [
    ("elements.csv", ELEMENTS),
    ("ab.csv", AB),
    ("light.csv", LIGHT),
    ("empty.csv", b""),
    (
        "odd.csv",
        b"symbol,number,mass,abundance,valence\ne-,0,0.0005,0,0\n\xff,1,10,1,1\n",
    ),
    (
        "quoted.csv",
        b"symbol,number,mass,abundance,valence\ne-,0,0.0005,0,0\nA,1,10,1,\"1\n",
    ),
    (
        "zero.csv",
        b"symbol,number,mass,abundance,valence\ne-,0,0.0005,0,0\nA\0,1,10,1,1\n",
    ),
    (
        "returns.csv",
        b"symbol,number,mass,abundance,valence\re-,0,0.0005,0,0\rA,1,10,1,1\r",
    ),
];

const AB_REPORT: &[u8] = b"decompose 1
peak 1 10.000000000000
formula A 10.000000000000 10.000000000000 0
formula B 10.000010000000 10.000010000000 10000000
";

#[test]
fn the_formulas_of_a_mass_are_printed(rt: HostRuntime) -> Result<(), Fail> {
    let rows = [
        // The formula of glucose, at tolerance 0.
        report(
            "decompose --table elements.csv --mass 180.06338810418 --da 0 --alphabet CHO",
            b"decompose 1\npeak 1 180.063388104180\nformula C6H12O6 180.063388104180 180.063388104180 0\n",
        ),
        // The window reaches below 0, and the empty formula isn't printed.
        report(
            "decompose --table elements.csv --mass 1 --da 2 --alphabet CHO",
            b"decompose 1
peak 1 1.000000000000
formula H 1.007825032230 1.007825032230 7825032230
formula H2 2.015650064460 2.015650064460 1015650064460
",
        ),
        // A formula lies exactly at the tolerance.
        report(
            "decompose --table ab.csv --mass 10 --da 0.00001 --alphabet AB",
            AB_REPORT,
        ),
        // A formula below the mass asked.
        report(
            "decompose --table ab.csv --mass 10.00001 --da 0.00001 --alphabet A",
            b"decompose 1\npeak 1 10.000010000000\nformula A 10.000000000000 10.000000000000 -10000000\n",
        ),
        // A CR alone ends a record.
        report(
            "decompose --table returns.csv --mass 10 --da 0 --alphabet A",
            b"decompose 1\npeak 1 10.000000000000\nformula A 10.000000000000 10.000000000000 0\n",
        ),
        // A labelled isotope of the same mass stands behind its element, and a range leaves out counts below it.
        report(
            "decompose --table ab.csv --mass 10 --da 0 --alphabet A[10A]",
            b"decompose 1
peak 1 10.000000000000
formula [10A] 10.000000000000 10.000000000000 0
formula A 10.000000000000 10.000000000000 0
",
        ),
        report(
            "decompose --table ab.csv --mass 20 --da 0.00003 --alphabet A1-1B0-1",
            b"decompose 1\npeak 1 20.000000000000\nformula AB 20.000010000000 20.000010000000 10000000\n",
        ),
    ];
    check_rows(&rt, rt.alloc(), FILES.as_slice(), &rows)?;
    Ok(())
}

#[test]
fn words_stand_in_any_order_and_no_others_are_taken(rt: HostRuntime) -> Result<(), Fail> {
    for words in [
        "decompose --alphabet=AB --da 0.00001 --table=ab.csv --mass=10",
        "decompose --mass 10 --alphabet AB --table ab.csv --da=0.00001",
    ] {
        check_rows(
            &rt,
            rt.alloc(),
            FILES.as_slice(),
            &[report(words, AB_REPORT)],
        )?;
    }
    for words in [
        "decompose --mass 10 --mass 10 --alphabet AB --table ab.csv --da 0",
        "decompose --mass 10 --alphabet AB --table ab.csv --da 0 x",
        "decompose --mass 10 --alphabet AB --table ab.csv --da 0 --",
        "decompose --mass 10 --alphabet AB --table ab.csv --da 0 --help",
        "decompose --mass 10 --alphabet AB --table ab.csv --d 0",
        "decompose --mass 10 --table ab.csv --da 0",
        "decompose --mass 10 --alphabet AB --table ab.csv --da=-1",
        "decompose --mass 10 --alphabet A --table ab.csv --da -1",
        "envelope --mass 10 --alphabet AB --table ab.csv --da 0",
        // The mass is an empty word.
        "decompose --table ab.csv --mass  --da 0 --alphabet A",
    ] {
        check_rows(
            &rt,
            rt.alloc(),
            FILES.as_slice(),
            &[refused(words, 2, b"isoform: words\n")],
        )?;
    }
    Ok(())
}

#[test]
fn values_come_before_the_table_and_this_before_the_alphabet(rt: HostRuntime) -> Result<(), Fail> {
    let rows = [
        refused(
            "decompose --table ab.csv --mass 0 --da 0 --alphabet AB",
            2,
            b"isoform: value: --mass\n",
        ),
        refused(
            "decompose --table empty.csv --mass 0 --da 11 --alphabet AQ",
            2,
            b"isoform: value: --mass\n",
        ),
        refused(
            "decompose --table ab.csv --mass 20000.000000000001 --da 0 --alphabet A",
            2,
            b"isoform: value: --mass\n",
        ),
        refused(
            "decompose --table ab.csv --mass 10.0000000000001 --da 0 --alphabet A",
            2,
            b"isoform: value: --mass\n",
        ),
        refused(
            "decompose --table empty.csv --mass 10 --da 10.1 --alphabet AQ",
            2,
            b"isoform: value: --da\n",
        ),
        refused(
            "decompose --table empty.csv --mass 10 --da 0 --alphabet AQ",
            3,
            b"isoform: table: record 1: header\n",
        ),
        // Tables that are no text, cut inside quotes, or have bytes of 0.
        refused(
            "decompose --table odd.csv --mass 10 --da 0 --alphabet A",
            3,
            b"isoform: table: record 3: symbol\n",
        ),
        refused(
            "decompose --table quoted.csv --mass 10 --da 0 --alphabet A",
            3,
            b"isoform: table: record 3: valence\n",
        ),
        refused(
            "decompose --table zero.csv --mass 10 --da 0 --alphabet A",
            3,
            b"isoform: table: record 3: symbol\n",
        ),
    ];
    check_rows(&rt, rt.alloc(), FILES.as_slice(), &rows)?;
    Ok(())
}

#[test]
fn an_alphabet_with_a_fault_or_too_many_formulas_is_refused(rt: HostRuntime) -> Result<(), Fail> {
    let rows = [
        refused(
            "decompose --table ab.csv --mass 10 --da 0 --alphabet AQ",
            5,
            b"isoform: alphabet: unknown symbol at 1\n",
        ),
        refused(
            "decompose --table ab.csv --mass 10 --da 0 --alphabet AA",
            5,
            b"isoform: alphabet: repeated at 1\n",
        ),
        refused(
            "decompose --table ab.csv --mass 10 --da 0 --alphabet A2",
            5,
            b"isoform: alphabet: bad text at 2\n",
        ),
        refused(
            "decompose --table ab.csv --mass 10 --da 0 --alphabet [11A]",
            5,
            b"isoform: alphabet: unknown symbol at 0\n",
        ),
        refused(
            "decompose --table ab.csv --mass 10 --da 0 --alphabet A5-2",
            5,
            b"isoform: alphabet: empty range at 0\n",
        ),
        refused(
            "decompose --table light.csv --mass 100 --da 0 --alphabet ABCD",
            6,
            b"isoform: limit: candidates of peak 1\n",
        ),
    ];
    check_rows(&rt, rt.alloc(), FILES.as_slice(), &rows)?;
    Ok(())
}

#[test]
fn a_name_of_4000_bytes_is_told(rt: HostRuntime) -> Result<(), Fail> {
    let alloc = rt.alloc();
    let name = String::from_utf8(vec![in alloc; b'n'; 4000]?)?;
    let words = format!(in alloc; "decompose --mass 10 --alphabet AB --da 0 --table {name}")?;
    let end = run_over(alloc, FILES.as_slice(), &words, Failing::Nothing)?;
    assert_eq!(rt; end.status, 7);
    let note = format!(in alloc; "isoform: read fault: {name}\n")?;
    assert!(rt; end.notes.bytes() == note.as_bytes());
    Ok(())
}

#[test]
fn a_file_of_its_limit_is_read_and_a_longer_one_is_refused(rt: HostRuntime) -> Result<(), Fail> {
    let whole = vec![in rt.alloc(); b'x'; 1 << 24]?;
    let long = vec![in rt.alloc(); b'x'; (1 << 24) + 1]?;
    let files = [
        ("whole.csv", whole.as_slice()),
        ("long.csv", long.as_slice()),
        ("ab.csv", AB),
    ];
    let rows = [
        refused(
            "decompose --table whole.csv --mass 10 --da 0 --alphabet AB",
            3,
            b"isoform: table: record 1: header\n",
        ),
        refused(
            "decompose --table long.csv --mass 10 --da 0 --alphabet AB",
            6,
            b"isoform: limit: file long.csv\n",
        ),
        refused(
            "decompose --table ab.csv --peaks long.csv --ppm 1 --alphabet AB",
            6,
            b"isoform: limit: file long.csv\n",
        ),
        refused(
            "decompose --table ab.csv --mass 10 --ppm 1 --alphabet AB --rules long.csv",
            6,
            b"isoform: limit: file long.csv\n",
        ),
    ];
    check_rows(&rt, rt.alloc(), files.as_slice(), &rows)?;
    Ok(())
}

/// A writer that takes all and can't write it out.
#[derive(Drop)]
struct Unflushed;

impl Write for Unflushed {
    fn write(&mut self, buf: &[u8]) -> io::Result<usize> {
        Ok(buf.len())
    }

    fn flush(&mut self) -> io::Result<()> {
        Err(ErrorKind::BrokenPipe.into())
    }
}

#[test]
fn a_report_that_cant_be_written_out_is_a_write_fault(rt: HostRuntime) -> Result<(), Fail> {
    // The status of the run, and what is told then.
    let cases = [
        (0, b"isoform: write fault\n".as_slice()),
        (9, b"isoform: write fault\n"),
        (8, b""),
    ];
    for (status, note) in cases {
        let mut out = StreamSink::new(Unflushed);
        let mut notes = MemorySink::new(rt.alloc(), 64)?;
        assert_eq!(rt; finish(status, &mut out, &mut notes), 8);
        assert!(rt; notes.bytes() == note, "{status}");
    }
    let mut out = StreamSink::new(Vec::new(rt.alloc()));
    let mut notes = MemorySink::new(rt.alloc(), 64)?;
    assert_eq!(rt; finish(9, &mut out, &mut notes), 9);
    assert!(rt; notes.bytes().is_empty());
    Ok(())
}
