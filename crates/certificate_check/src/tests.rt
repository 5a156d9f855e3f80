//! Judgements of certificates as calls: a worked certificate, and the same with one line changed.

use super::*;
use certificate_text::read_certificate;
use element_table::read_table;
use std::alloc::Global;
use std::test::Fail;

const TABLE: &[u8] = b"symbol,number,mass,abundance,valence
e-,0,0.000548579909,0,0
X,10,10,0.5,1
X,11,11,0.5,1
W,1,1,0.4,1
W,2,2,0.3,1
W,3,3,0.1,1
W,4,4,0.1,1
W,5,5,0.1,1
";

/// What a note says of the judgement of a certificate's text.
fn judged(alloc: Global, text: &[u8]) -> Result<Vec<u8>, Fail> {
    let table = read_table(alloc, TABLE)?;
    let certificate = read_certificate(alloc, &table, text)?;
    Ok(check(alloc, &table, &certificate)?.words(alloc)?)
}

const HEAD: &str = "isoform certificate 1\nformula X2\n";

const NUMBERS: &str =
    "coverage 750000000000000000\nsize 2\nbound 2\nthreshold 125000000000000000\n";

// The numbers of the smaller cover of one, with a threshold that its member alone is above.
const ONE: &str = "coverage 500000000000000000\nsize 1\nbound 1\nthreshold 500000000000000000\n";

const LINES: &str = "cover [10X][11X]\ncover [11X]2\nlayer [10X]2\nend\n";

#[test]
fn one_changed_line_is_the_first_test_that_fails(rt: HostRuntime) -> Result<(), Fail> {
    let alloc = rt.alloc();
    let rows: &[(&str, &str, &str)] = &[
        (NUMBERS, LINES, "accepted"),
        (
            NUMBERS,
            "cover [10X][11X]\ncover [11X]2\nend\n",
            "open boundary: line 7: [10X]2: 250000000000000000",
        ),
        (
            NUMBERS,
            "cover [11X]2\ncover [10X][11X]\nlayer [10X]2\nend\n",
            "out of order: line 8",
        ),
        (
            NUMBERS,
            "cover [10X][11X]\ncover [10X][11X]\ncover [11X]2\nlayer [10X]2\nend\n",
            "out of order: line 8",
        ),
        (
            NUMBERS,
            "cover [11X][10X]\ncover [11X]2\nlayer [10X]2\nend\n",
            "not of formula: line 7",
        ),
        (NUMBERS, "cover [11X]2\nlayer [10X]2\nend\n", "mode absent"),
        (
            "coverage 750000000000000000\nsize 3\nbound 2\nthreshold 125000000000000000\n",
            LINES,
            "size differs: 3: 2",
        ),
        (
            "coverage 750000000000000000\nsize 1\nbound 2\nthreshold 125000000000000000\n",
            "cover [10X][11X]\nlayer [11X]2\nlayer [10X]2\nend\n",
            "cover short: 500000000000000000",
        ),
        (
            "coverage 0\nsize 2\nbound 2\nthreshold 125000000000000000\n",
            LINES,
            "coverage range: 0",
        ),
        (
            "coverage 750000000000000000\nsize 2\nbound 0\nthreshold 125000000000000000\n",
            LINES,
            "accepted",
        ),
        (
            "coverage 750000000000000000\nsize 2\nbound 3\nthreshold 125000000000000000\n",
            LINES,
            "bound too high: 750000000000000000",
        ),
        (
            "coverage 750000000000000000\nsize 2\nbound 1000000000000000000\nthreshold 125000000000000000\n",
            LINES,
            "bound too high: 125000000000000000500000000000000000",
        ),
        (ONE, "cover [10X][11X]\nend\n", "accepted"),
    ];
    for (numbers, lines, expected) in rows {
        let text = format!(in alloc; "{HEAD}{numbers}{lines}")?;
        assert_eq!(rt;
            judged(alloc, text.as_bytes())?.as_slice(),
            expected.as_bytes()
        );
    }
    Ok(())
}

// Two of three isotopes of one weight are listed; the isotope of 0.3 was left out.
#[test]
fn what_was_left_out_is_seen_by_the_neighbours(rt: HostRuntime) -> Result<(), Fail> {
    let text = b"isoform certificate 1
formula W
coverage 600000000000000000
size 3
bound 3
threshold 100000000000000000
cover [1W]
cover [4W]
cover [3W]
end
";
    assert_eq!(rt;
        judged(rt.alloc(), text)?.as_slice(),
        b"open boundary: line 7: [2W]: 300000000000000000".as_slice()
    );
    Ok(())
}

// One isotopologue, listed once too often for any certificate; that it is repeated is found later.
#[test]
fn a_line_more_than_1048576_is_one_too_many(rt: HostRuntime) -> Result<(), Fail> {
    let alloc = rt.alloc();
    let mut text = format!(in alloc; "{HEAD}{NUMBERS}")?.into_bytes();
    for _ in 0..1_048_577 {
        text.extend_from_slice(b"cover [10X][11X]\n")?;
    }
    text.extend_from_slice(b"end\n")?;
    assert_eq!(rt;
        judged(alloc, &text)?.as_slice(),
        b"too many members: 1048577".as_slice()
    );
    Ok(())
}
