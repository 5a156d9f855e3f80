//! The printed text of an item and of its count.
ghost use Rattle.std.specs.Prelude.{◌≡◌, ◌++◌, OnOk, OnErr};
ghost use Rattle.written_items.specs.Items.{item_text, count_text};

use crate::item::Item;
use itoa::Buffer;
use std::alloc::AllocError;

/// Appends an item: its symbol, or `[13C]`. Without room for it the text stays as it was.
pub fn push_item(text: &mut Vec<u8>, item: &Item) -> Result<(), AllocError>
    ensures text { OnOk result (text.new.items ≡ text.old.items ++ item_text item.now) }
    ensures refused { OnErr result (text.new.items ≡ text.old.items) }
{
    let symbol = item.symbol.text();
    if item.label == 0 {
        return text.extend_from_slice(symbol);
    }
    let mut label = Buffer::new();
    let digits = label.format(item.label).as_bytes();
    text.reserve(digits.len() + symbol.len() + 2)?;
    text.push(b'[')?;
    text.extend_from_slice(digits)?;
    text.extend_from_slice(symbol)?;
    text.push(b']')?;
    Ok(())
}

/// Appends a count in digits, unless it is 1. Without room for it the text stays as it was.
pub fn push_count(text: &mut Vec<u8>, count: u32) -> Result<(), AllocError>
    ensures text { OnOk result (text.new.items ≡ text.old.items ++ count_text count) }
    ensures refused { OnErr result (text.new.items ≡ text.old.items) }
{
    if count == 1 {
        return Ok(());
    }
    let mut digits = Buffer::new();
    text.extend_from_slice(digits.format(count).as_bytes())
}
