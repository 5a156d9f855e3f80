//! The reader of formula texts.
ghost use Rattle.std.specs.Prelude.{◌≡◌, ◌<◌, length, map, IfOk, IfErr, IfSome, OnOk, OnErr, Result, List, ℕ};
ghost use Rattle.std.specs.Prelude.{MatchBool, ⊤, Ok, Err};
ghost use Rattle.reader_answers.specs.Answers.{Gives};
ghost use Rattle.std.specs.Str.Parse.{AllDigits};
ghost use Rattle.element_table.specs.Elements.{IsTable};
ghost use Rattle.written_items.specs.RowReading.{count_tail, leading_part, row_of};
ghost use Rattle.formula_text.specs.FormulaFaults.{is_memory};
ghost use Rattle.formula_text.specs.Masses.{HasItems};
ghost use Rattle.formula_text.specs.FormulaTexts.{Answer, FormulaReading};
ghost use Rattle.formula_text.specs.FormulaReader.{read_of, count_value, part_answer, value_part, value_item};
ghost use Rattle.formula_text.specs.FormulaReader.{value_fault, values_fault, values_or_fault};

use crate::fault::FormulaFault;
use crate::formula::Formula;
use crate::parts::Parts;
use element_table::Table;
use fixed_decimal::{capped_number, leading_digits};
use std::alloc::{AllocError, Global};
use written_items::{BadItem, Item, LeadingItem, leading_item};

/// An item of a text with its count.
#[derive(Clone, Copy, Debug, PartialEq, Eq)]
pub struct ReadPart {
    /// The place of the item's first byte.
    at: usize,
    item: LeadingItem,
    /// The count, 2^32 - 1 for a greater one.
    count: u32,
}

/// The formula of a text, as `C5[13C]H12O6`. Items may repeat and stand in any order, and equal items
/// add up; a count has any number of digits, and one of 0 adds nothing. Refused with the first fault
/// in the order in which [`FormulaFault`] lists them; of an unknown symbol and an unknown isotope the
/// first by place.
pub fn read_formula(alloc: Global, table: &Table, text: &[u8]) -> Result<Formula, FormulaFault>
    ensures gives { Gives is_memory result (read_of table.now text.now) }
    ensures meaning { FormulaReading table.now text.now (read_of table.now text.now) }
    ensures only { (answer : Answer) → FormulaReading table.now text.now answer → answer ≡ read_of table.now text.now }

    // The table has each item of the formula.
    ensures known { IfOk result (HasItems table.now) }
{
    read_of(alloc, table, text)
}

/// The formula of a text as it is computed.
fn read_of(alloc: Global, table: &Table, text: &[u8]) -> Result<Formula, FormulaFault>
    ensures { Gives is_memory result (read_of table.now text.now) }
{
    let parts = read_parts(alloc, text)?;
    if let Some(fault) = values_fault(table, &parts) {
        return Err(fault);
    }
    let items = value_parts(alloc, &parts)?;
    let parts = Parts::of(alloc, &items)?;
    match Formula::from_parts(parts) {
        Some(formula) => Ok(formula),
        None => Err(FormulaFault::Empty),
    }
}

/// The items of a text with their counts, in the order of the text.
fn read_parts(alloc: Global, text: &[u8]) -> Result<Vec<ReadPart>, FormulaFault>
    ensures parts { IfOk result (λ v. values_or_fault 0 (row_of count_tail text.now) ≡ Ok v.items) }
    ensures fault { IfErr result (λ e.
        MatchBool (is_memory e) ⊤ (values_or_fault 0 (row_of count_tail text.now) ≡ Err e)) }
{
    let mut parts = Vec::new(alloc);
    let mut at = 0;
    while at < text.len() {
        match leading_part(&text[at..]) {
            Ok((item, count, length)) => {
                parts.push(ReadPart { at, item, count })?;
                at += length;
            }
            Err(bad) => {
                return Err(FormulaFault::BadText {
                    place: (at + bad.at) as u64,
                });
            }
        }
    }
    Ok(parts)
}

/// The item that a text begins with, its count, and how many bytes both take.
fn leading_part(text: &[u8]) -> Result<(LeadingItem, u32, usize), BadItem>
    ensures { result ≡ part_answer (leading_part count_tail text.now) }
{
    let item = leading_item(text)?;
    let digits = leading_digits(&text[item.byte_count..]);
    Ok((item, count_value(digits), item.byte_count + digits.len()))
}

/// The count that digits write, 1 where there is none; 2^32 - 1 for a greater one.
fn count_value(digits: &[u8]) -> u32
    requires { AllDigits 10 digits.now }
    ensures { result ≡ count_value digits.now }
{
    if digits.is_empty() {
        1
    } else {
        capped_number(digits, u64::from(u32::MAX)) as u32
    }
}

/// The fault of the first item that the table doesn't have.
fn values_fault(table: &Table, parts: &[ReadPart]) -> Option<FormulaFault>
    ensures fault { result ≡ values_fault table.now parts.now }
    ensures table { 0 < length parts.now → IsTable table.now }
{
    for part in parts {
        if let Some(fault) = value_fault(table, part) {
            return Some(fault);
        }
    }
    None
}

/// The fault of an item that the table doesn't have.
fn value_fault(table: &Table, part: &ReadPart) -> Option<FormulaFault>
    ensures fault { result ≡ value_fault table.now part.now }
    ensures table { IsTable table.now }
{
    let place = part.at as u64;
    let Some(element) = table.element(part.item.symbol) else {
        return Some(FormulaFault::UnknownSymbol { place });
    };
    match part.item.number {
        None => None,
        Some(number) if number > 0 && element.isotope(number).is_some() => None,
        Some(_) => Some(FormulaFault::UnknownIsotope { place }),
    }
}

/// The items with their counts.
fn value_parts(alloc: Global, parts: &[ReadPart]) -> Result<Vec<(Item, u32)>, AllocError>
    ensures { IfOk result (λ v. v.items ≡ map value_part parts.now) }
{
    parts
        .iter()
        .map(|part| (value_item(&part.item), part.count))
        .collect(alloc)
}

/// The item that was read.
fn value_item(item: &LeadingItem) -> Item
    ensures { result ≡ value_item item.now }
{
    Item {
        symbol: item.symbol,
        label: item.number.unwrap_or(0),
    }
}
