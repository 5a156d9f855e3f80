//! Values that come from outside: the certificate of a worked example, and the fault of each other text.

use super::*;
use element_table::read_table;
use std::alloc::Global;
use std::process::Abort;
use std::test::Fail;

const TABLE: &[u8] = b"symbol,number,mass,abundance,valence
e-,0,0.000548579909,0,0
X,10,10,0.5,1
X,11,11,0.5,1
";

const HEAD: &[u8] = b"isoform certificate 1
formula X2
coverage 750000000000000000
size 2
bound 2
threshold 125000000000000000
";

const LISTED: &[u8] = b"cover [10X][11X]
cover [11X]2
layer [10X]2
end
";

/// The bytes of the head and those of a tail behind it.
fn behind_head(alloc: Global, tail: &[u8]) -> Result<Vec<u8>, Fail> {
    let mut bytes = Vec::from_slice(alloc, HEAD)?;
    bytes.extend_from_slice(tail)?;
    Ok(bytes)
}

/// Reads a text, which is to have a fault of these words, or none where they are empty.
fn expect(rt: &impl Abort, alloc: Global, text: &[u8], words: &str) -> Result<(), Fail> {
    let table = read_table(alloc, TABLE)?;
    match read_certificate(alloc, &table, text) {
        Ok(_) => assert_eq!(rt; words, ""),
        Err(fault) => assert_eq!(rt; fault.words(alloc)?.as_str(), words),
    }
    Ok(())
}

#[test]
fn a_certificate_is_read(rt: HostRuntime) -> Result<(), Fail> {
    let alloc = rt.alloc();
    let table = read_table(alloc, TABLE)?;
    let bytes = behind_head(alloc, LISTED)?;
    let certificate = read_certificate(alloc, &table, &bytes)?;
    assert_eq!(rt; certificate.formula().print()?.as_slice(), b"X2".as_slice());
    assert_eq!(rt; certificate.coverage(), 750_000_000_000_000_000);
    assert_eq!(rt; certificate.size(), 2);
    assert_eq!(rt; certificate.bound(), 2);
    assert_eq!(rt; certificate.threshold(), 125_000_000_000_000_000);
    let listed: [(bool, &[u8]); 3] = [(true, b"[10X][11X]"), (true, b"[11X]2"), (false, b"[10X]2")];
    let lines = certificate.lines();
    assert_eq!(rt; lines.len(), listed.len());
    for (line, (marked, text)) in lines.iter().zip(listed) {
        assert_eq!(rt; line.marked(), marked);
        assert_eq!(rt; line.text(), text);
    }
    Ok(())
}

#[test]
fn the_first_six_lines_have_faults(rt: HostRuntime) -> Result<(), Fail> {
    let alloc = rt.alloc();
    let cases: [(&[u8], &str); 14] = [
        (b"", "end missing"),
        (b"\n", "bad line 1"),
        (b"isoform certificate 1", "end missing"),
        (b"isoform certificate 1 ", "bad line 1"),
        (b"isoform certificate 1\r", "bad line 1"),
        (b"isoform certificate 1\r\nformula", "bad line 2"),
        (b"isoform certificate 1\nformula X2x", "formula line"),
        (b"isoform certificate 1\nformula Y", "formula line"),
        (b"isoform certificate 1\nformula ", "formula line"),
        (b"isoform certificate 1\nformula XX\n", "end missing"),
        (b"isoform certificate 1\nformula X2\nsize 2", "bad line 3"),
        (
            b"isoform certificate 1\nformula X2\ncoverage 1\nsize two",
            "number line 4",
        ),
        (
            b"isoform certificate 1\nformula X2\ncoverage 001000000000000000000\nsize 0",
            "end missing",
        ),
        (
            b"isoform certificate 1\nformula X2\ncoverage 1000000000000000001",
            "number line 3",
        ),
    ];
    for (text, words) in cases {
        expect(&rt, alloc, text, words)?;
    }
    Ok(())
}

#[test]
fn the_lines_behind_the_head_have_faults(rt: HostRuntime) -> Result<(), Fail> {
    let alloc = rt.alloc();
    let cases: [(&[u8], &str); 14] = [
        (b"", "end missing"),
        (b"cover [10X][11X]\ncover [11X]2\n", "end missing"),
        (b"end", ""),
        (b"end\r\n\r\n\n", ""),
        (b"end\r", "bad line 7"),
        (b"end\n\n\r", "bad line 9"),
        (b"end\nend\n", "bad line 8"),
        (b"end\n\nlayer [10X]2\n", "bad line 9"),
        (b"\nend\n", "bad line 7"),
        (b"cover\nend\n", "bad line 7"),
        (b"cover \nlayer \xff\r\r\nend\n", ""),
        (b"layer [10X]2\ncover [11X]2\nend\n", ""),
        (b"layer [10X]2\n Cover [11X]2\nend\n", "bad line 8"),
        (b"layer [10X]2\nend \n", "bad line 8"),
    ];
    for (tail, words) in cases {
        let text = behind_head(alloc, tail)?;
        expect(&rt, alloc, &text, words)?;
    }
    Ok(())
}
