//! Whole runs that write and check certificates: worked ones, and the same with a line changed.
use crate::rows::{check_rows, refused, report};
use std::test::Fail;

const X: &[u8] = b"symbol,number,mass,abundance,valence
e-,0,0.000548579909,0,0
X,10,10,0.5,1
X,11,11,0.5,1
Y,20,20,0.3,2
Y,21,21,0.3,2
Y,22,22,0.3,2
";

/// The certificate of a cover of one isotopologue.
const ONE: &[u8] = b"isoform certificate 1
formula X2
coverage 500000000000000000
size 1
bound 1
threshold 250000000000000000
cover [10X][11X]
end
";

/// That of a cover of two, whose layer has one more.
const TWO: &[u8] = b"isoform certificate 1
formula X2
coverage 750000000000000000
size 2
bound 2
threshold 125000000000000000
cover [10X][11X]
cover [11X]2
layer [10X]2
end
";

/// That of the same coverage with the weights of a tracer.
const TRACED: &[u8] = b"isoform certificate 1
formula X2
coverage 750000000000000000
size 2
bound 2
threshold 281250000000000000
cover [11X]2
cover [10X][11X]
end
";

const TWO_WITHOUT_ITS_LAYER: &[u8] = b"isoform certificate 1
formula X2
coverage 750000000000000000
size 2
bound 2
threshold 125000000000000000
cover [10X][11X]
cover [11X]2
end
";

const TWO_WITH_BOUND_3: &[u8] = b"isoform certificate 1
formula X2
coverage 750000000000000000
size 2
bound 3
threshold 125000000000000000
cover [10X][11X]
cover [11X]2
layer [10X]2
end
";

const TWO_WITH_SIZE_3: &[u8] = b"isoform certificate 1
formula X2
coverage 750000000000000000
size 3
bound 2
threshold 125000000000000000
cover [10X][11X]
cover [11X]2
layer [10X]2
end
";

const TWO_CUT: &[u8] = b"isoform certificate 1
formula X2
coverage 750000000000000000
size 2
bound 2
threshold 125000000000000000
cover [10X][11X]
cover [11X]2
";

/// The files of each run, with their names.
const FILES: [(&str, &[u8]); 14] = [
    ("x.csv", X),
    (
        "tracer.csv",
        b"symbol,number,abundance12\nX,10,0.25\nX,11,0.75\n",
    ),
    ("bad.csv", b"symbol\n"),
    ("one", ONE),
    ("two", TWO),
    ("traced", TRACED),
    ("open", TWO_WITHOUT_ITS_LAYER),
    ("high", TWO_WITH_BOUND_3),
    ("long", TWO_WITH_SIZE_3),
    ("cut", TWO_CUT),
    ("empty", b""),
    (
        "worded",
        b"isoform certificate 1\nformula X2\ncoverage 1\nsize two\n",
    ),
    ("misspelled", b"isoform certificate 1\nformula X2x\n"),
    ("report", b"envelope X2\n"),
];

#[test]
fn certificates_are_written_and_accepted(rt: HostRuntime) -> Result<(), Fail> {
    let rows = [
        report(
            "envelope --table x.csv --formula X2 --coverage 0.5 --certificate",
            ONE,
        ),
        report(
            "envelope --certificate --table x.csv --formula X2 --coverage 0.75",
            TWO,
        ),
        report(
            "envelope --table x.csv --tracer tracer.csv --formula X2 --coverage 0.75 --certificate",
            TRACED,
        ),
        report(
            "check --table x.csv --certificate one",
            b"accepted size 1 bound 1\n",
        ),
        report(
            "check --certificate=two --table=x.csv",
            b"accepted size 2 bound 2\n",
        ),
        report(
            "check --table x.csv --tracer tracer.csv --certificate traced",
            b"accepted size 2 bound 2\n",
        ),
    ];
    check_rows(&rt, rt.alloc(), FILES.as_slice(), &rows)?;
    Ok(())
}

#[test]
fn certificates_that_are_not_accepted(rt: HostRuntime) -> Result<(), Fail> {
    let rows = [
        refused(
            "check --table x.csv --certificate open",
            1,
            b"isoform: certificate: open boundary: line 7: [10X]2: 250000000000000000\n",
        ),
        refused(
            "check --table x.csv --certificate high",
            1,
            b"isoform: certificate: bound too high: 750000000000000000\n",
        ),
        refused(
            "check --table x.csv --certificate long",
            1,
            b"isoform: certificate: size differs: 3: 2\n",
        ),
        // The weights of the tracer, and those of the table in place of the tracer's.
        refused(
            "check --table x.csv --tracer tracer.csv --certificate two",
            1,
            b"isoform: certificate: out of order: line 8\n",
        ),
        refused(
            "check --table x.csv --certificate traced",
            1,
            b"isoform: certificate: out of order: line 8\n",
        ),
    ];
    check_rows(&rt, rt.alloc(), FILES.as_slice(), &rows)?;
    Ok(())
}

#[test]
fn certificates_that_are_not_read(rt: HostRuntime) -> Result<(), Fail> {
    let rows = [
        refused(
            "check --table x.csv --certificate cut",
            5,
            b"isoform: certificate text: end missing\n",
        ),
        refused(
            "check --table x.csv --certificate empty",
            5,
            b"isoform: certificate text: end missing\n",
        ),
        refused(
            "check --table x.csv --certificate worded",
            5,
            b"isoform: certificate text: number line 4\n",
        ),
        refused(
            "check --table x.csv --certificate misspelled",
            5,
            b"isoform: certificate text: formula line\n",
        ),
        refused(
            "check --table x.csv --certificate report",
            5,
            b"isoform: certificate text: bad line 1\n",
        ),
        refused(
            "check --table x.csv --certificate absent",
            7,
            b"isoform: read fault: absent\n",
        ),
        // The table and the tracer are read before it.
        refused(
            "check --table bad.csv --certificate absent",
            3,
            b"isoform: table: record 1: header\n",
        ),
        refused(
            "check --table x.csv --tracer bad.csv --certificate absent",
            3,
            b"isoform: tracer: record 1: header\n",
        ),
        refused("check --table x.csv", 2, b"isoform: words\n"),
        refused(
            "envelope --table x.csv --formula X2 --coverage 0.5 --certificate=one",
            2,
            b"isoform: words\n",
        ),
    ];
    check_rows(&rt, rt.alloc(), FILES.as_slice(), &rows)?;
    Ok(())
}
