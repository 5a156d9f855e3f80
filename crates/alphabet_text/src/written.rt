//! The entries of a text as they are written, each at its place.
ghost use Rattle.std.specs.Prelude.{◌≡◌, ◌+◌, ◌<◌, ◌≤◌, ◌==◌, length, drop, min, IfOk, ◌^◌, All};
ghost use Rattle.std.specs.Str.Parse.{AllDigits, digits_value};
ghost use Rattle.reader_answers.specs.Answers.{Gives};
ghost use Rattle.written_items.specs.RowReading.{leading_part, row_of};
ghost use Rattle.written_items.specs.WrittenItems.{begins};
ghost use Rattle.alphabet_text.specs.AlphabetFaults.{is_memory};
ghost use Rattle.alphabet_text.specs.AlphabetTexts.{hyphen};
ghost use Rattle.alphabet_text.specs.AlphabetAnswers.{range_tail};
ghost use Rattle.alphabet_text.specs.WrittenEntries.{entries_at, entry_at, first_high_place, high_place};
ghost use Rattle.alphabet_text.specs.WrittenEntries.{answer_items, range_at};

use crate::fault::AlphabetFault;
use decompose::{Limit, MAX_COUNT};
use fixed_decimal::{capped_number, leading_digits};
use std::alloc::Global;
use written_items::{LeadingItem, leading_item};

/// What stands behind an item.
#[derive(Clone, Copy, Debug)]
pub(crate) struct WrittenRange {
    /// The limits, 0 to 10,000 where no range is written; a number above 10,000 is told as 10,001.
    pub limit: Limit,
    /// The place of the first digit of the first limit above 10,000.
    pub high_place: Option<usize>,
    /// How many bytes of the text the range takes.
    pub byte_count: usize,
}

/// An entry as it is written.
#[derive(Clone, Copy, Debug)]
pub(crate) struct WrittenEntry {
    /// The place of its first byte.
    pub at: usize,
    /// Its item.
    pub item: LeadingItem,
    /// What stands behind the item.
    pub range: WrittenRange,
}

/// The entries of a text, in the order of the text, or the place at which no entry can go on.
pub(crate) fn read_entries(alloc: Global, text: &[u8]) -> Result<Vec<WrittenEntry>, AlphabetFault>
    ensures { Gives is_memory (answer_items result) (entries_at 0 (row_of range_tail text.now)) }
{
    let mut entries = Vec::new(alloc);
    let mut at = 0;
    while at < text.len() {
        let entry = read_entry(text, at)?;
        at += entry.item.byte_count + entry.range.byte_count;
        entries.push(entry)?;
    }
    Ok(entries)
}

/// The entry that begins at a place of a text.
fn read_entry(text: &[u8], at: usize) -> Result<WrittenEntry, AlphabetFault>
    requires { at ≤ length text.now }
    ensures entry { result ≡ entry_at at (leading_part range_tail (drop at text.now)) }
    ensures within { IfOk result (λ e. at + e.item.byte_count + e.range.byte_count ≤ length text.now) }
    ensures some { IfOk result (λ e. 0 < e.item.byte_count) }
{
    let rest = &text[at..];
    let item = match leading_item(rest) {
        Ok(item) => item,
        Err(bad) => {
            return Err(AlphabetFault::BadText {
                place: (at + bad.at) as u64,
            });
        }
    };
    let range = read_range(&rest[item.byte_count..], at + item.byte_count)?;
    Ok(WrittenEntry { at, item, range })
}

/// The range that a text begins with; `at` is the place of the text in the whole one.
fn read_range(text: &[u8], at: usize) -> Result<WrittenRange, AlphabetFault>
    requires { at + length text.now < 2 ^ 64 }
    ensures range { result ≡ range_at at (range_tail text.now) }
    ensures within { IfOk result (λ r. r.byte_count ≤ length text.now) }
{
    let low = leading_digits(text);
    if low.is_empty() {
        return Ok(WrittenRange {
            limit: Limit {
                low: 0,
                high: MAX_COUNT,
            },
            high_place: None,
            byte_count: 0,
        });
    }
    let behind = &text[low.len()..];
    if !begins_with_hyphen(behind) {
        return Err(AlphabetFault::BadText {
            place: (at + low.len()) as u64,
        });
    }
    let high = leading_digits(&behind[1..]);
    let high_at = at + low.len() + 1;
    if high.is_empty() {
        return Err(AlphabetFault::BadText {
            place: high_at as u64,
        });
    }
    let limit = Limit {
        low: capped_limit(low),
        high: capped_limit(high),
    };
    Ok(WrittenRange {
        limit,
        high_place: high_place(limit, at, high_at),
        byte_count: low.len() + 1 + high.len(),
    })
}

/// Whether a text begins with a hyphen.
fn begins_with_hyphen(text: &[u8]) -> bool
    ensures { result ≡ begins (λ byte. byte == hyphen) text.now }
{
    text.first() == Some(&b'-')
}

/// The place of the first limit above 10,000, of limits at these places.
fn high_place(limit: Limit, low_at: usize, high_at: usize) -> Option<usize>
    ensures { result ≡ high_place limit low_at high_at }
{
    if limit.low > MAX_COUNT {
        Some(low_at)
    } else if limit.high > MAX_COUNT {
        Some(high_at)
    } else {
        None
    }
}

/// The number that digits spell, 10,001 for a greater one.
fn capped_limit(digits: &[u8]) -> u32
    requires { AllDigits 10 digits.now }
    ensures { result ≡ min (digits_value 10 digits.now) (MAX_COUNT + 1) }
{
    capped_number(digits, u64::from(MAX_COUNT) + 1) as u32
}

/// The place of the first digit of the first limit above 10,000.
pub(crate) fn first_high_place(entries: &[WrittenEntry]) -> Option<usize>
    ensures { result ≡ first_high_place entries.now }
{
    for entry in entries {
        if let Some(place) = entry.range.high_place {
            return Some(place);
        }
    }
    None
}
