//! The counts of the isotopologue that has a text.

ghost use Rattle.std.specs.Prelude.{◌≡◌, ◌≤◌, ◌<◌, All, IfOk, IfSome, IsTrue, List, ℕ, None, Some, is_some, map};
ghost use Rattle.std.specs.Prelude.{if◌then◌else◌, option_map};
ghost use Rattle.std.specs.Option.{option_copied};
ghost use Rattle.element_table.specs.Elements.{IsIsotope};
ghost use Rattle.written_items.specs.Items.{item_text};
ghost use Rattle.formula_text.specs.Masses.{HasItems};
ghost use Rattle.isotopologue_text.specs.Isotopologues.{HasText, IsOfText, isotope_item, isotopes_that_occur};
ghost use Rattle.isotopologue_text.specs.Isotopologues.{plain_items};
ghost use Rattle.isotopologue_text.specs.ReadCounts.{behind, counts_after, counts_of_text, element_counts};
ghost use Rattle.isotopologue_text.specs.ReadCounts.{leading_count, printed_count};

use crate::isotopes::isotopes_of;
use crate::text::has_plain;
use element_table::{Isotope, Table};
use fixed_decimal::{leading_digits, whole};
use formula_text::{Formula, Item};
use itoa::Buffer;
use std::alloc::{AllocError, Global};

/// The counts of the isotopologue of the formula that has this text, as [`crate::isotopologue_text`] prints it. `None`
/// exactly where no isotopologue has it: also where the isotopes stand in another order, where one has no abundance,
/// or where a count is printed in another way.
pub fn isotopologue_of(
    alloc: Global,
    table: &Table,
    formula: &Formula,
    text: &[u8],
) -> Result<Option<Vec<u32>>, AllocError>
    requires { HasItems table.now formula.now }
    ensures value { IfOk result (λ o. option_map (λ counts. counts.items) o
        ≡ counts_of_text table.now formula.now text.now) }

    // That is the isotopologue with this text, and the only one.
    ensures meaning { IsOfText table.now formula.now text.now (counts_of_text table.now formula.now text.now) }
    ensures only { (a b : List ℕ) → HasText table.now formula.now text.now a
        → HasText table.now formula.now text.now b → a ≡ b }
{
    let mut counts = Vec::new(alloc);
    let found = isotopologue_into(table, formula, text, &mut counts)?;
    Ok(found.then_some(counts))
}

/// The same into a vector, which loses what it had, and whether there is such an isotopologue. Where there is none, or
/// no memory, the vector may hold any counts.
#[tactic(auto, unfolding(crate::specs::ReadCounts::counts_of_text))]
pub fn isotopologue_into(
    table: &Table,
    formula: &Formula,
    text: &[u8],
    counts: &mut Vec<u32>,
) -> Result<bool, AllocError>
    requires { HasItems table.now formula.now }
    ensures value { IfOk result (λ found.
        counts_of_text table.now formula.now text.now ≡ (if found then Some counts.new.items else None)) }
    ensures meaning { IsOfText table.now formula.now text.now (counts_of_text table.now formula.now text.now) }
    ensures only { (a b : List ℕ) → HasText table.now formula.now text.now a → HasText table.now formula.now text.now b
        → a ≡ b }
{
    // The contract of this call tells that the isotopes of an element stand in order.
    let _elements = table.elements();
    counts.clear();
    let items = formula.items();
    if has_plain(items) {
        read_counts(table, items, text, counts)
    } else {
        Ok(text == b"-".as_slice())
    }
}

/// Appends the counts of the isotopes of the items without a label, and tells whether the text is theirs.
fn read_counts(
    table: &Table,
    items: &[(Item, u32)],
    text: &[u8],
    counts: &mut Vec<u32>,
) -> Result<bool, AllocError>
    requires { HasItems table.now items.now }
    ensures { IfOk result (λ found. counts_after table.now (plain_items items.now) counts.old.items text.now
        ≡ (if found then Some counts.new.items else None)) }
{
    let mut rest = text;
    for (item, atoms) in items {
        if item.label == 0 {
            match read_element(item, isotopes_of(table, item), *atoms, rest, counts)? {
                Some(behind) => rest = behind,
                None => return Ok(false),
            }
        }
    }
    Ok(rest.is_empty())
}

/// Appends the counts of an element's isotopes at the beginning of a text, and gives the rest of it. `None` where they
/// don't sum to so many atoms, or one is printed in another way.
fn read_element<'a>(
    item: &Item,
    isotopes: &[Isotope],
    atoms: u32,
    text: &'a [u8],
    counts: &mut Vec<u32>,
) -> Result<Option<&'a [u8]>, AllocError>
    requires { All IsIsotope isotopes.now }
    ensures { IfOk result (λ rest.
        element_counts (map (isotope_item item.now) (isotopes_that_occur isotopes.now)) atoms counts.old.items text.now
        ≡ option_map (λ r. (counts.new.items, r.now)) rest) }
{
    let mut left = atoms;
    let mut rest = text;
    for isotope in isotopes {
        if isotope.weight > 0 {
            let Some((count, behind)) = leading_count(item, isotope, left, rest) else {
                return Ok(None);
            };
            counts.push(count)?;
            left -= count;
            rest = behind;
        }
    }
    Ok((left == 0).then_some(rest))
}

/// The count of an isotope at the beginning of a text, 0 where the text doesn't begin with it, and the rest of the
/// text. `None` where digits stand behind it that print no count of at most so many.
#[tactic(auto, unfolding(crate::specs::ReadCounts::leading_count))]
fn leading_count<'a>(
    item: &Item,
    isotope: &Isotope,
    most: u32,
    text: &'a [u8],
) -> Option<(u32, &'a [u8])>
    requires { 0 < isotope.now.number }
    ensures count { option_map (λ r. (r.0, r.1.now)) result
        ≡ leading_count most (isotope_item item.now isotope.now) text.now }
    ensures few { IfSome result (λ r. r.0 ≤ most) }
{
    let Some(rest) = behind_isotope(item, isotope, text) else {
        return Some((0, text));
    };
    let digits = leading_digits(rest);
    let count = printed_count(digits, most)?;
    Some((count, &rest[digits.len()..]))
}

/// The count that the digits behind an isotope print, if it is at most so many: 1 without a digit. No count begins with
/// 0, and a count of 1 isn't printed.
fn printed_count(digits: &[u8], most: u32) -> Option<u32>
    ensures count { result ≡ printed_count most digits.now }
    ensures few { IfSome result (λ count. count ≤ most) }
{
    match digits {
        [] => (most >= 1).then_some(1),
        [b'0', ..] | [b'1'] => None,
        _ => whole(digits, u64::from(most)).map(|count| count as u32),
    }
}

/// What stands behind an isotope at the beginning of a text, if the text begins with it.
fn behind_isotope<'a>(item: &Item, isotope: &Isotope, text: &'a [u8]) -> Option<&'a [u8]>
    requires { 0 < isotope.now.number }
    ensures { option_copied result ≡ behind (item_text (isotope_item item.now isotope.now)) text.now }
{
    let mut digits = Buffer::new();
    let number = digits.format(isotope.number).as_bytes();
    let rest = behind(b"[", text)?;
    let rest = behind(number, rest)?;
    let rest = behind(item.symbol.text(), rest)?;
    behind(b"]", rest)
}

/// What stands behind a word at the beginning of a text, if the text begins with it.
fn behind<'a>(word: &[u8], text: &'a [u8]) -> Option<&'a [u8]>
    ensures { option_copied result ≡ behind word.now text.now }
{
    text.strip_prefix(word)
}
