//! What no clause says: that the texts are those that people write.
use super::*;
use std::test::Fail;

#[test]
fn texts_stand_in_front_of_what_was_written(rt: HostRuntime) -> Result<(), Fail> {
    let cases: [(u32, u32, &[u8]); 5] = [
        (0, 0, b"-0:0."),
        (13, 1, b"-13:."),
        (1, 2, b"-1:2."),
        (207, 10, b"-207:10."),
        (4_294_967_295, 4_294_967_295, b"-4294967295:4294967295."),
    ];
    for (number, count, text) in cases {
        let mut room = [b' '; 24];
        let end = write_byte(&mut room, 24, b'.');
        let end = write_count(&mut room, end, count);
        let end = write_byte(&mut room, end, b':');
        let end = write_number(&mut room, end, number);
        let start = write_byte(&mut room, end, b'-');
        assert_eq!(rt; &room[start..], text);
    }
    Ok(())
}
