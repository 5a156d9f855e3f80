//! Rows and columns of known answers, of lengths around whole vectors.
use super::*;

#[test]
fn a_row_is_reached_at_the_first_place_that_is_low_enough(rt: HostRuntime) {
    let row = [1000; 100];
    let end = [u64::MAX - 1; 19];
    let cases = [
        (first_reached(&row, 950), Some(50)),
        (first_reached(&row, 900), None),
        (first_reached(&row, 901), Some(99)),
        (first_reached(&row, 1000), Some(0)),
        (first_reached(&row[..0], 1000), None),
        (first_reached(&row[..96], 904), None),
        (first_reached(&row[..97], 904), Some(96)),
        (first_reached(&end, u64::MAX - 19), Some(18)),
        (first_reached(&end[..18], u64::MAX - 19), None),
    ];
    for (place, (found, wanted)) in cases.iter().enumerate() {
        assert_eq!(rt; *found, *wanted, "case {place}");
    }
}

#[test]
fn masses_are_counted_up_to_both_ends(rt: HostRuntime) {
    let column = [
        0, 1, 2, 3, 4, 5, 6, 7, 8, 9, 10, 11, 12, 13, 14, 15, 16, 17, 18, 19, 20, 21, 22, 23, 24,
        25, 26, 27, 28, 29, 30, 31, 32, 33, 34, 35, 36,
    ];
    let cases = [
        (count_between(&column, 5, 31), 27),
        (count_between(&column, 36, u64::MAX), 1),
        (count_between(&column, 9, 8), 0),
        (count_between(&[u64::MAX], u64::MAX, u64::MAX), 1),
        (count_between(&[u64::MAX; 17], u64::MAX, u64::MAX), 17),
        (count_between(&column[..0], 0, u64::MAX), 0),
    ];
    for (place, (found, wanted)) in cases.iter().enumerate() {
        assert_eq!(rt; *found, *wanted, "case {place}");
    }
}
