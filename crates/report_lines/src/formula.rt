//! The printed text of a formula, written from its last item to the first.
ghost use Rattle.std.specs.Prelude.{◌≡◌, ◌++◌, ◌+◌, ◌≤◌, OnOk, OnErr, length, take, drop};
ghost use Rattle.written_items.specs.Items.{count_text, item_text};
ghost use Rattle.formula_text.specs.PrintedText.{printed_text};

use backward_text::{write_byte, write_count, write_number};
use std::alloc::AllocError;
use written_items::Item;

/// The most items that are written before they are appended.
pub(crate) const GROUP: usize = 16;

/// The bytes that a group has room in: of each item two brackets, ten digits of a label, three letters and ten digits
/// of a count.
pub(crate) const GROUP_LENGTH: usize = 400;

/// Appends the printed text of a formula. Without room for all of it a part may be appended.
pub(crate) fn push_formula(text: &mut Vec<u8>, items: &[(Item, u32)]) -> Result<(), AllocError>
    ensures text { OnOk result (text.new.items ≡ text.old.items ++ printed_text items.now) }
    ensures kept { OnErr result (take (length text.old.items) text.new.items ≡ text.old.items) }
{
    let mut rest = items;
    while rest.len() > GROUP {
        let (group, others) = rest.split_at(GROUP);
        push_group(text, group)?;
        rest = others;
    }
    push_group(text, rest)
}

/// Appends a few items with their counts. Without room for them the text stays as it was.
fn push_group(text: &mut Vec<u8>, items: &[(Item, u32)]) -> Result<(), AllocError>
    requires few { length items.now ≤ 16 }
    ensures text { OnOk result (text.new.items ≡ text.old.items ++ printed_text items.now) }
    ensures refused { OnErr result (text.new.items ≡ text.old.items) }
{
    let mut room = [0; GROUP_LENGTH];
    let start = write_group(&mut room, GROUP_LENGTH, items);
    text.extend_from_slice(&room[start..])
}

/// Writes a few items with their counts so that they end at `end`, and tells where they begin.
pub(crate) fn write_group(room: &mut [u8], end: usize, items: &[(Item, u32)]) -> usize
    requires few { length items.now ≤ 16 }
    requires from { 400 ≤ end }
    requires to { end ≤ length room.old }
    ensures within { result ≤ end }
    ensures short { end ≤ result + 400 }
    ensures text { drop result room.new ≡ printed_text items.now ++ drop end room.old }
{
    let mut at = end;
    let mut place = items.len();
    while place > 0 {
        place -= 1;
        let (item, count) = &items[place];
        at = write_counted(room, at, item, *count);
    }
    at
}

/// Writes an item with its count so that it ends at `end`, and tells where it begins.
#[inline(always)]
fn write_counted(room: &mut [u8], end: usize, item: &Item, count: u32) -> usize
    requires from { 25 ≤ end }
    requires to { end ≤ length room.old }
    ensures within { result ≤ end }
    ensures short { end ≤ result + 25 }
    ensures text { drop result room.new ≡ (item_text item.now ++ count_text count) ++ drop end room.old }
{
    let digits = write_count(room, end, count);
    write_item(room, digits, item)
}

/// Writes an item so that it ends at `end`, and tells where it begins.
#[inline(always)]
fn write_item(room: &mut [u8], end: usize, item: &Item) -> usize
    requires from { 15 ≤ end }
    requires to { end ≤ length room.old }
    ensures within { result ≤ end }
    ensures short { end ≤ result + 15 }
    ensures text { drop result room.new ≡ item_text item.now ++ drop end room.old }
{
    if item.label == 0 {
        return write_symbol(room, end, item.symbol.text());
    }
    let closing = write_byte(room, end, b']');
    let symbol = write_symbol(room, closing, item.symbol.text());
    let label = write_number(room, symbol, item.label);
    write_byte(room, label, b'[')
}

/// Writes the letters of a symbol so that they end at `end`, and tells where they begin.
#[inline(always)]
fn write_symbol(room: &mut [u8], end: usize, symbol: &[u8]) -> usize
    requires few { length symbol.now ≤ 3 }
    requires from { 3 ≤ end }
    requires to { end ≤ length room.old }
    ensures start { result + length symbol.now ≡ end }
    ensures short { end ≤ result + 3 }
    ensures text { drop result room.new ≡ symbol.now ++ drop end room.old }
{
    match symbol {
        [first] => write_byte(room, end, *first),
        [first, second] => {
            let at = write_byte(room, end, *second);
            write_byte(room, at, *first)
        }
        [first, second, third] => {
            let at = write_byte(room, end, *third);
            let at = write_byte(room, at, *second);
            write_byte(room, at, *first)
        }
        _ => end,
    }
}
