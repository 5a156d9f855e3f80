//! What no clause says: that the records are those of the file format, and that a file is read with
//! ample memory.

use super::*;
use std::process::Abort;
use std::test::Fail;

/// Compares the records of a text with what they should be: fields parted by `|`, records by `;`.
fn expect_records(
    rt: &impl Abort,
    alloc: Global,
    text: &[u8],
    expected: &[u8],
) -> Result<(), Fail> {
    let records = Records::read(alloc, text)?;
    let mut joined = Vec::new(alloc);
    for row in 0..records.len() {
        for column in 0..records.field_count(row) {
            if column > 0 {
                joined.push(b'|')?;
            }
            joined.extend_from_slice(records.field(row, column))?;
        }
        joined.push(b';')?;
    }
    assert_eq!(rt; joined.as_slice(), expected);
    Ok(())
}

#[test]
fn records_have_the_fields_of_the_format(rt: HostRuntime) -> Result<(), Fail> {
    for (text, expected) in [
        (b"a,b\nc,d\n".as_slice(), b"a|b;c|d;".as_slice()),
        (b"a,\"b,\nc\",\"\"\"d\"\"\"", b"a|b,\nc|\"d\";"),
        // A carriage return alone ends a record, and a line without any byte is none.
        (b"a\r\nb\rc\nd", b"a;b;c;d;"),
        (b"a\n\n\r\nb\n", b"a;b;"),
        (b"a,b,c\nd\n,\n", b"a|b|c;d;|;"),
        // A quote that isn't closed runs to the end of the file.
        (b"a,\"b\nc,d", b"a|b\nc,d;"),
        (b"", b""),
        // Blanks are spaces and tabs, also round a quoted field; before a quote they make it a byte.
        (b" a\t,\t b c \n", b"a|b c;"),
        (b"a\n \t \nb", b"a;;b;"),
        (b"\" H \", \"H\"\n", b"H|\"H\";"),
        (b"\"\n\x0ba\",b\x0c", b"\n\x0ba|b\x0c;"),
        // A byte order mark is dropped once, and bytes need be no UTF-8.
        (b"\xef\xbb\xbfa,b", b"a|b;"),
        (b"\xef\xbb\xbf\xef\xbb\xbfa", b"\xef\xbb\xbfa;"),
        (b"a\xef\xbb\xbf", b"a\xef\xbb\xbf;"),
        (b"\x00,\xff\xfe \n\xc3", b"\x00|\xff\xfe;\xc3;"),
    ] {
        expect_records(&rt, rt.alloc(), text, expected)?;
    }
    Ok(())
}

#[test]
fn a_file_without_a_record_is_empty(rt: HostRuntime) -> Result<(), Fail> {
    assert!(rt; Records::read(rt.alloc(), b"\n\r\n")?.is_empty());
    assert!(rt; !Records::read(rt.alloc(), b" ")?.is_empty());
    Ok(())
}

#[test]
fn a_file_longer_than_a_buffer_is_read_to_its_end(rt: HostRuntime) -> Result<(), Fail> {
    let alloc = rt.alloc();
    let mut text = Vec::new(alloc);
    for _ in 0..20_000 {
        text.extend_from_slice(b"ab,c\n")?;
    }
    text.extend_from_slice(b"end")?;
    let records = Records::read(alloc, text.as_slice())?;
    assert_eq!(rt; records.len(), 20_001);
    for index in 0..records.len() {
        let (fields, first) = if index < 20_000 {
            (2, b"ab".as_slice())
        } else {
            (1, b"end".as_slice())
        };
        assert_eq!(rt; records.field_count(index), fields);
        assert!(rt; records.field_count(index) > 0);
        assert_eq!(rt; records.field(index, 0), first);
    }
    Ok(())
}

#[test]
fn a_header_is_the_first_record_after_quotes_and_blanks_are_taken_off(
    rt: HostRuntime,
) -> Result<(), Fail> {
    for (text, is_header) in [
        (b"mz,name\n1,2".as_slice(), true),
        (b"\"mz\" , name\n", true),
        (b"", false),
        (b"mz\n", false),
        (b"mz,name,\n", false),
        (b"mz,names\n", false),
        (b"name,mz\n", false),
        (b"1,2\nmz,name", false),
    ] {
        let records = Records::read(rt.alloc(), text)?;
        let names = [b"mz".as_slice(), b"name".as_slice()];
        assert_eq!(rt; records.has_header(&names), is_header);
    }
    Ok(())
}
