//! The readers of what a text begins with.
ghost use Rattle.std.specs.Prelude.{◌≡◌, ◌==◌, true, false, drop, IfOk, IfErr, IfSome, IfNone};
ghost use Rattle.reader_answers.specs.BadPlaces.{IsBadPlace};
ghost use Rattle.std.specs.List.{prefix_len};
ghost use Rattle.element_table.specs.SymbolText.{is_capital, is_small};
ghost use Rattle.written_items.specs.WrittenItems.{BeginsWithItem, TellsLeadingItem, IsLeadingSymbol, begins};
ghost use Rattle.written_items.specs.LeadingItems.{item_answer, leading_symbol, leading_item, labelled_item};
ghost use Rattle.written_items.specs.LeadingItems.{plain_item};

use crate::item::{BadItem, LeadingItem};
use element_table::Symbol;
use fixed_decimal::{capped_number, leading_digits};

/// How many small letters a text begins with.
fn small_letter_count(text: &[u8]) -> usize
    ensures { result ≡ prefix_len is_small text.now }
{
    text.iter()
        .take_while(|byte| byte.is_ascii_lowercase())
        .count()
}

/// The symbol that a text begins with: a capital letter and as many small letters as follow, at most
/// two. `None` exactly where the text begins with no capital letter.
pub fn leading_symbol(text: &[u8]) -> Option<Symbol>
    ensures symbol { result ≡ leading_symbol text.now }
    ensures longest { IfSome result (IsLeadingSymbol text.now) }
    ensures none { IfNone result (begins is_capital text.now ≡ false) }
{
    let (_, rest) = text.split_first()?;
    let small = small_letter_count(&rest[..rest.len().min(2)]);
    Symbol::of(&text[..1 + small])
}

/// The item that a text begins with, in brackets or with as many small letters as follow, at most two;
/// or the place at which no item can go on.
pub fn leading_item(text: &[u8]) -> Result<LeadingItem, BadItem>
    ensures item { result ≡ item_answer (leading_item text.now) }
    ensures leading { IfOk result (TellsLeadingItem text.now) }
    ensures bad { IfErr result (λ e. IsBadPlace BeginsWithItem text.now e.at) }
{
    if begins_with(text, b'[') {
        labelled_item(&text[1..])
    } else {
        plain_item(text)
    }
}

/// The item without brackets that a text begins with.
fn plain_item(text: &[u8]) -> Result<LeadingItem, BadItem>
    ensures { result ≡ item_answer (plain_item (leading_symbol text.now)) }
{
    match leading_symbol(text) {
        Some(symbol) => Ok(LeadingItem {
            symbol,
            number: None,
            byte_count: symbol.text().len(),
        }),
        None => Err(BadItem { at: 0 }),
    }
}

/// The item in brackets of which `text` is behind the first bracket. Places are counted from that bracket.
fn labelled_item(text: &[u8]) -> Result<LeadingItem, BadItem>
    ensures { result ≡ item_answer (labelled_item text.now) }
{
    let digits = leading_digits(text);
    if digits.is_empty() {
        return Err(BadItem { at: 1 });
    }
    let behind = &text[digits.len()..];
    let Some(symbol) = leading_symbol(behind) else {
        return Err(BadItem {
            at: 1 + digits.len(),
        });
    };
    let letters = symbol.text().len();
    let bracket_at = 1 + digits.len() + letters;
    if !begins_with(&behind[letters..], b']') {
        return Err(BadItem { at: bracket_at });
    }
    Ok(LeadingItem {
        symbol,
        number: Some(capped_number(digits, u64::from(u32::MAX)) as u32),
        byte_count: bracket_at + 1,
    })
}

/// Whether a text begins with a byte.
fn begins_with(text: &[u8], byte: u8) -> bool
    ensures { result ≡ begins (λ b. b == byte) text.now }
{
    text.first() == Some(&byte)
}
