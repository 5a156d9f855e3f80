//! Isotopes with their counts, written from the last to the first.
ghost use Rattle.std.specs.Prelude.{◌≡◌, ◌++◌, ◌+◌, ◌≤◌, OnOk, length, drop};
ghost use Rattle.isotopologue_text.specs.Labels.{label_text, labelled_text, labels_text};

use crate::label::{LABEL_LENGTH, Label};
use backward_text::write_count;
use std::alloc::AllocError;

/// The most isotopes that are written before they are appended.
const GROUP: usize = 16;

/// The bytes that a group has room in: of each isotope its label and ten digits.
const GROUP_LENGTH: usize = 416;

/// Appends isotopes of these texts with their counts.
pub(crate) fn push_counts(
    text: &mut Vec<u8>,
    labels: &[Label],
    counts: &[u32],
) -> Result<(), AllocError>
    requires one_count_each { length counts.now ≡ length labels.now }
    ensures { OnOk result (text.new.items ≡ text.old.items ++ labels_text labels.now counts.now) }
{
    let mut rest = labels;
    let mut left = counts;
    while rest.len() > GROUP {
        let (group, others) = rest.split_at(GROUP);
        let (own, more) = left.split_at(GROUP);
        push_group(text, group, own)?;
        rest = others;
        left = more;
    }
    push_group(text, rest, left)
}

/// Appends a few isotopes.
fn push_group(text: &mut Vec<u8>, labels: &[Label], counts: &[u32]) -> Result<(), AllocError>
    requires few { length labels.now ≤ 16 }
    requires one_count_each { length counts.now ≡ length labels.now }
    ensures { OnOk result (text.new.items ≡ text.old.items ++ labels_text labels.now counts.now) }
{
    let mut room = [0; GROUP_LENGTH];
    let start = write_group(&mut room, labels, counts);
    text.extend_from_slice(&room[start..])
}

/// Writes a few isotopes at the end of the room, and tells where they begin.
fn write_group(room: &mut [u8], labels: &[Label], counts: &[u32]) -> usize
    requires few { length labels.now ≤ 16 }
    requires one_count_each { length counts.now ≡ length labels.now }
    requires room { length room.old ≡ 416 }
    ensures within { result ≤ length room.old }
    ensures text { drop result room.new ≡ labels_text labels.now counts.now }
{
    let mut at = room.len();
    let mut place = labels.len();
    while place > 0 {
        place -= 1;
        at = write_counted(room, at, &labels[place], counts[place]);
    }
    at
}

/// Writes an isotope with its count so that it ends at `end`, nothing for 0, and tells where it begins.
#[inline(always)]
fn write_counted(room: &mut [u8], end: usize, label: &Label, count: u32) -> usize
    requires from { 26 ≤ end }
    requires to { end ≤ length room.old }
    ensures within { result ≤ end }
    ensures short { end ≤ result + 26 }
    ensures text { drop result room.new ≡ labelled_text (label_text label.now) count ++ drop end room.old }
{
    if count == 0 {
        return end;
    }
    let digits = write_count(room, end, count);
    write_label(room, digits, label)
}

/// Writes the text of an isotope so that it ends at `end`, and tells where it begins. The bytes before may change.
#[inline(always)]
fn write_label(room: &mut [u8], end: usize, label: &Label) -> usize
    requires from { 16 ≤ end }
    requires to { end ≤ length room.old }
    ensures within { result ≤ end }
    ensures short { end ≤ result + 16 }
    ensures text { drop result room.new ≡ label_text label.now ++ drop end room.old }
{
    let from = end - LABEL_LENGTH;
    room[from..end].copy_from_slice(&label.bytes);
    from + label.start
}
