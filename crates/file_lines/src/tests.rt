//! Lines by their ends.

use super::*;
use std::test::Fail;

#[test]
fn a_line_ends_at_lf_or_cr_lf(rt: HostRuntime) -> Result<(), Fail> {
    let cases: [(&[u8], &[u8], &[u8]); 6] = [
        (b"one\ntwo", b"one", b"two"),
        (b"one\r\n\n", b"one", b"\n"),
        (b"one\r\r\ntwo", b"one\r", b"two"),
        (b"one\r", b"one\r", b""),
        (b"\r\n", b"", b""),
        (b"one\rtwo", b"one\rtwo", b""),
    ];
    for (bytes, line, rest) in cases {
        assert!(rt; !bytes.is_empty());
        let (cut, left) = cut_line(bytes);
        assert_eq!(rt; cut, line);
        assert_eq!(rt; left, rest);
    }
    Ok(())
}
