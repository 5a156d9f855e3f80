//! The text of an isotopologue.
ghost use Rattle.std.specs.Prelude.{◌≡◌, ◌++◌, ◌≤◌, All, OnOk, IfOk, length, map};
ghost use Rattle.std.specs.List.{list_any};
ghost use Rattle.element_table.specs.Elements.{IsIsotope};
ghost use Rattle.formula_text.specs.Masses.{HasItems};
ghost use Rattle.isotopologue_text.specs.Isotopologues.{isotopes_that_occur, formula_isotopes, isotope_items, is_plain};
ghost use Rattle.isotopologue_text.specs.Isotopologues.{isotope_item, isotope_text, counts_text, isotopologue_text_of};
ghost use Rattle.isotopologue_text.specs.Isotopologues.{IsIsotopologueOf};

use crate::isotopes::{isotope_count, isotopes_of};
use element_table::{Isotope, Table};
use formula_text::{Formula, Item};
use std::alloc::{AllocError, Global};
use written_items::{push_count, push_item};

/// Appends an isotope with its count, unless that is 0.
fn push_isotope(
    text: &mut Vec<u8>,
    item: &Item,
    isotope: &Isotope,
    count: u32,
) -> Result<(), AllocError>
    ensures { OnOk result (text.new.items ≡ text.old.items ++ isotope_text (isotope_item item.now isotope.now) count) }
{
    if count == 0 {
        return Ok(());
    }
    let isotope = Item {
        symbol: item.symbol,
        label: isotope.number,
    };
    push_item(text, &isotope)?;
    push_count(text, count)
}

/// Appends an element's isotopes that occur, with their counts.
fn push_element(
    text: &mut Vec<u8>,
    item: &Item,
    isotopes: &[Isotope],
    counts: &[u32],
) -> Result<(), AllocError>
    requires agree { length counts.now ≡ length (isotopes_that_occur isotopes.now) }
    requires isotopes { All IsIsotope isotopes.now }
    ensures { OnOk result (text.new.items ≡ text.old.items
        ++ counts_text (map (isotope_item item.now) (isotopes_that_occur isotopes.now)) counts.now) }
{
    let mut rest = counts;
    for isotope in isotopes {
        if isotope.weight > 0 {
            push_isotope(text, item, isotope, rest[0])?;
            rest = &rest[1..];
        }
    }
    Ok(())
}

/// The isotopes of the items without a label, with their counts.
fn counts_text(
    alloc: Global,
    table: &Table,
    items: &[(Item, u32)],
    counts: &[u32],
) -> Result<Vec<u8>, AllocError>
    requires known { HasItems table.now items.now }
    requires agree { length counts.now ≡ length (formula_isotopes table.now items.now) }
    ensures { IfOk result (λ text. text.items ≡ counts_text (isotope_items table.now items.now) counts.now) }
{
    let mut text = Vec::new(alloc);
    let mut rest = counts;
    for (item, _) in items {
        if item.label == 0 {
            let isotopes = isotopes_of(table, item);
            let (own, others) = rest.split_at(isotope_count(isotopes));
            push_element(&mut text, item, isotopes, own)?;
            rest = others;
        }
    }
    Ok(text)
}

/// Whether an item has no label.
pub(crate) fn has_plain(items: &[(Item, u32)]) -> bool
    ensures { result ≡ list_any (λ p. is_plain p.0) items.now }
{
    items.iter().any(|(item, _)| item.label == 0)
}

/// The text of an isotopologue, as `[12C]5[13C]`: its isotopes with their counts, where isotopes of
/// count 0 are left out and a count of 1 isn't printed. The formula's labelled atoms aren't in it, and
/// it is `-` where the formula has no others.
pub fn isotopologue_text(
    alloc: Global,
    table: &Table,
    formula: &Formula,
    counts: &[u32],
) -> Result<Vec<u8>, AllocError>
    requires known { HasItems table.now formula.now }
    requires isotopologue { IsIsotopologueOf table.now formula.now counts.now }
    ensures { IfOk result (λ text. text.items ≡ isotopologue_text_of table.now formula.now counts.now) }
{
    let items = formula.items();
    if has_plain(items) {
        counts_text(alloc, table, items, counts)
    } else {
        Vec::from_slice(alloc, b"-")
    }
}
