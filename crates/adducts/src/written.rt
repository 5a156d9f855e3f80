//! The text of an adduct as it is written.
ghost use Rattle.std.specs.Prelude.{◌≡◌, ◌==◌, ◌*◌, ◌<◌, ◌≤◌, true, length, drop, IsTrue};
ghost use Rattle.std.specs.Str.Parse.{AllDigits};
ghost use Rattle.written_items.specs.Items.{opening_bracket};
ghost use Rattle.written_items.specs.WrittenItems.{begins};
ghost use Rattle.adducts.specs.AdductTexts.{is_sign};
ghost use Rattle.adducts.specs.AdductReadings.{number_or_one};
ghost use Rattle.adducts.specs.AdductReader.{capped};
ghost use Rattle.adducts.specs.Progress.{Expects, ReadsCharge, ReadsRow, ReadsTerms, WrittenOr};

use crate::fault::AdductFault;
use element_table::Symbol;
use fixed_decimal::{capped_number, leading_digits};
use std::alloc::Global;
use written_items::leading_symbol;

/// A symbol of a term, with the atoms of it that the term adds to an ion or takes off it.
#[derive(Clone, Copy, Debug)]
pub(crate) struct TermPart {
    /// The place of the symbol's first byte.
    pub at: usize,
    /// The symbol.
    pub symbol: Symbol,
    /// The coefficient times the count, 2^32 - 1 for a greater number.
    pub count: u32,
    /// Whether an ion lacks these atoms.
    pub is_lost: bool,
}

/// The charge of an adduct in brackets.
#[derive(Clone, Copy, Debug)]
pub(crate) struct WrittenCharge {
    /// How many charges there are, 2^32 - 1 for more.
    pub number: u32,
    /// Whether they are negative.
    pub is_negative: bool,
}

/// An adduct as it is written.
#[derive(Debug, Drop)]
pub(crate) struct WrittenAdduct {
    /// The copies, 2^32 - 1 for more.
    pub copies: u32,
    /// The symbols of its terms, in the order of the text.
    pub parts: Vec<TermPart>,
    /// The charge, none for the neutral adduct.
    pub charge: Option<WrittenCharge>,
}

/// How often a term's atoms are taken, and whether they are lost.
#[derive(Clone, Copy)]
struct Factor {
    coefficient: u32,
    is_lost: bool,
}

/// The fault of bad text at a place.
fn bad_text(at: usize) -> AdductFault
    ensures { result ≡ AdductFault.BadText at }
{
    AdductFault::BadText { place: at as u64 }
}

/// Reads an adduct as it is written, or tells the first byte at which no adduct can go on.
pub(crate) fn read_written(alloc: Global, text: &[u8]) -> Result<WrittenAdduct, AdductFault>
    ensures { WrittenOr text.now result }
{
    if begins_with(text, b'[') {
        return read_ion(alloc, text);
    }
    if !begins_with(text, b'M') {
        return Err(bad_text(0));
    }
    if text.len() > 1 {
        return Err(bad_text(1));
    }
    Ok(WrittenAdduct {
        copies: 1,
        parts: Vec::new(alloc),
        charge: None,
    })
}

/// Reads an adduct in brackets.
fn read_ion(alloc: Global, text: &[u8]) -> Result<WrittenAdduct, AdductFault>
    requires { begins (λ b. b == opening_bracket) text.now ≡ true }
    ensures { WrittenOr text.now result }
{
    let copies = leading_digits(&text[1..]);
    let letter_at = 1 + copies.len();
    expect_byte(text, letter_at, b'M')?;
    let mut parts = Vec::new(alloc);
    let bracket_at = read_terms(&mut parts, text, letter_at + 1)?;
    expect_byte(text, bracket_at, b']')?;
    let charge = read_charge(text, bracket_at + 1)?;
    Ok(WrittenAdduct {
        copies: number_or_one(copies),
        parts,
        charge: Some(charge),
    })
}

/// Tells the place of bad text where another byte than this one stands, or none.
fn expect_byte(text: &[u8], at: usize, byte: u8) -> Result<(), AdductFault>
    requires { at ≤ length text.now }
    ensures { Expects text.now at byte result }
{
    if begins_with(&text[at..], byte) {
        Ok(())
    } else {
        Err(bad_text(at))
    }
}

/// Reads terms, none or more, behind the parts of earlier ones, and gives the place behind the last term.
fn read_terms(parts: &mut Vec<TermPart>, text: &[u8], at: usize) -> Result<usize, AdductFault>
    requires { at ≤ length text.now }
    ensures { ReadsTerms text.now at parts.old.items parts.new.items result }
{
    let mut at = at;
    while is_sign_at(text, at) {
        let coefficient = leading_digits(&text[at + 1..]);
        let factor = Factor {
            coefficient: number_or_one(coefficient),
            is_lost: text[at] == b'-',
        };
        at = read_row(parts, text, at + 1 + coefficient.len(), factor)?;
    }
    Ok(at)
}

/// Reads the symbols of a term with their counts, one or more, and gives the place behind the last one.
fn read_row(
    parts: &mut Vec<TermPart>,
    text: &[u8],
    start: usize,
    factor: Factor,
) -> Result<usize, AdductFault>
    requires { start ≤ length text.now }
    ensures { ReadsRow text.now start factor parts.old.items parts.new.items result }
{
    let mut at = start;
    while let Some(symbol) = leading_symbol(&text[at..]) {
        let letters = symbol.text().len();
        let digits = leading_digits(&text[at + letters..]);
        let count = capped_product(factor.coefficient, number_or_one(digits));
        parts.push(TermPart {
            at,
            symbol,
            count,
            is_lost: factor.is_lost,
        })?;
        at += letters + digits.len();
    }
    if at == start {
        Err(bad_text(at))
    } else {
        Ok(at)
    }
}

/// Reads the charge, which ends the text.
fn read_charge(text: &[u8], at: usize) -> Result<WrittenCharge, AdductFault>
    requires { at ≤ length text.now }
    ensures { ReadsCharge text.now at result }
{
    let digits = leading_digits(&text[at..]);
    let sign_at = at + digits.len();
    if !is_sign_at(text, sign_at) {
        return Err(bad_text(sign_at));
    }
    if sign_at + 1 < text.len() {
        return Err(bad_text(sign_at + 1));
    }
    Ok(WrittenCharge {
        number: number_or_one(digits),
        is_negative: text[sign_at] == b'-',
    })
}

/// Whether a text begins with a byte.
fn begins_with(text: &[u8], byte: u8) -> bool
    ensures { result ≡ begins (λ b. b == byte) text.now }
{
    text.first() == Some(&byte)
}

/// Whether a sign stands at a place.
fn is_sign_at(text: &[u8], at: usize) -> bool
    requires { at ≤ length text.now }
    ensures sign { result ≡ begins is_sign (drop at text.now) }
    ensures within { IsTrue result → at < length text.now }
{
    match text[at..].first() {
        Some(byte) => *byte == b'+' || *byte == b'-',
        None => false,
    }
}

/// The number that digits spell, 1 where there are none, and 2^32 - 1 for a greater one.
fn number_or_one(digits: &[u8]) -> u32
    requires { AllDigits 10 digits.now }
    ensures { result ≡ capped (number_or_one digits.now) }
{
    if digits.is_empty() {
        1
    } else {
        capped_number(digits, u64::from(u32::MAX)) as u32
    }
}

/// The product of two numbers, 2^32 - 1 for a greater one.
fn capped_product(a: u32, b: u32) -> u32
    ensures { result ≡ capped (a * b) }
{
    a.saturating_mul(b)
}
