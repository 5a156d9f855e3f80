//! What the isotopologues of one formula are printed with, found once for all of them.
ghost use Rattle.std.specs.Prelude.{◌≡◌, ◌++◌, ◌≤◌, IfOk, OnOk, length, map, sum};
ghost use Rattle.formula_text.specs.Masses.{HasItems};
ghost use Rattle.isotopologue_text.specs.Isotopologues.{isotopes_that_occur, isotope_item, isotope_items};
ghost use Rattle.isotopologue_text.specs.Isotopologues.{formula_isotopes};
ghost use Rattle.isotopologue_text.specs.Labels.{AreLabels, label_text};
ghost use Rattle.isotopologue_text.specs.Printed.{printed_isotopes, printed_text, printed_mass};
ghost use Rattle.written_items.specs.Items.{item_text};

use crate::counted::push_counts;
use crate::isotopes::isotopes_of;
use crate::label::{LABEL_LENGTH, Label};
use crate::masses::IsotopeMasses;
use crate::text::has_plain;
use element_table::{Isotope, Table};
use formula_text::{Formula, Item};
use std::alloc::{AllocError, Global};
use std::marker::Model;
use written_items::push_item;

/// The length of two brackets and the ten digits of a mass number.
const BRACKETED_NUMBER: usize = 12;

/// The isotopes that the isotopologues of a formula count, with the mass of its labelled atoms: what the text and the
/// mass of each isotopologue are made of, without a look at the table.
#[derive(Drop)]
pub struct PrintedIsotopes {
    items: Vec<Item>,
    /// The text of each item.
    labels: Vec<Label>,
    masses: IsotopeMasses,
    has_plain: bool,
}

impl Model for PrintedIsotopes {
    ghost use Rattle.std.specs.Prelude.{◌≡◌, length};
    ghost use Rattle.isotopologue_text.specs.Labels.{AreLabels};
    ghost use Rattle.isotopologue_text.specs.Printed.{Printed};

    ghost Value = { Printed };

    ghost view = { λ p. record {
      items = p.items.items;
      isotopes = p.masses.isotopes;
      labelled = p.masses.labelled;
      has_plain = p.has_plain;
    } };

    ghost invariant = { λ p. (length p.items.items ≡ length p.masses.isotopes)
        × AreLabels p.items.items p.labels.items };
}

impl PrintedIsotopes {
    /// What the isotopologues of a formula are printed with.
    pub fn of(
        alloc: Global,
        table: &Table,
        formula: &Formula,
    ) -> Result<PrintedIsotopes, AllocError>
        requires { HasItems table.now formula.now }
        ensures { IfOk result (λ p. p ≡ printed_isotopes table.now formula.now) }
    {
        let parts = formula.items();
        let masses = IsotopeMasses::of(alloc, table, formula)?;
        let items = items_in(alloc, table, parts)?;
        let labels = labels_of(alloc, &items)?;
        Ok(PrintedIsotopes {
            items,
            labels,
            masses,
            has_plain: has_plain(parts),
        })
    }

    /// Appends the text of an isotopologue, as [`isotopologue_text`](crate::isotopologue_text) gives it.
    pub fn push_text(&self, counts: &[u32], text: &mut Vec<u8>) -> Result<(), AllocError>
        requires { length counts.now ≡ length self.now.isotopes }
        ensures { OnOk result (text.new.items ≡ text.old.items ++ printed_text self.now counts.now) }
    {
        if !self.has_plain {
            text.push(b'-')?;
            return Ok(());
        }
        push_counts(text, &self.labels, counts)
    }

    /// The mass of an isotopologue in 10^-12 Da, the formula's labelled atoms included.
    pub fn mass(&self, counts: &[u32]) -> u64
        requires agree { length counts.now ≡ length self.now.isotopes }
        requires few_atoms { sum counts.now ≤ 20000 }
        ensures { result ≡ printed_mass self.now counts.now }
    {
        self.masses.mass(counts)
    }
}

/// The texts of isotopes.
fn labels_of(alloc: Global, items: &[Item]) -> Result<Vec<Label>, AllocError>
    ensures { IfOk result (λ labels. AreLabels items.now labels.items) }
{
    let mut labels = Vec::new(alloc);
    for item in items {
        let label = label_of(alloc, *item)?;
        labels.push(label)?;
    }
    Ok(labels)
}

/// The label of an isotope.
fn label_of(alloc: Global, item: Item) -> Result<Label, AllocError>
    ensures { IfOk result (λ label. label_text label ≡ item_text item) }
{
    let mut text = Vec::with_capacity(alloc, item.symbol.text().len() + BRACKETED_NUMBER)?;
    push_item(&mut text, &item)?;
    Ok(label_with(&text))
}

/// The label of this text.
fn label_with(text: &[u8]) -> Label
    requires { length text.now ≤ 16 }
    ensures { label_text result ≡ text.now }
{
    let start = LABEL_LENGTH - text.len();
    let mut bytes = [0; LABEL_LENGTH];
    bytes[start..].copy_from_slice(text);
    Label { bytes, start }
}

/// The isotopes that occur of the items without a label, as labelled items.
fn items_in(alloc: Global, table: &Table, parts: &[(Item, u32)]) -> Result<Vec<Item>, AllocError>
    requires { HasItems table.now parts.now }
    ensures items { IfOk result (λ items. items.items ≡ isotope_items table.now parts.now) }
    ensures as_many { IfOk result (λ items. length items.items ≡ length (formula_isotopes table.now parts.now)) }
{
    let mut items = Vec::new(alloc);
    for (item, _) in parts {
        if item.label == 0 {
            push_items(item, isotopes_of(table, item), &mut items)?;
        }
    }
    Ok(items)
}

/// Appends the isotopes of an item's element that occur, as labelled items.
fn push_items(item: &Item, own: &[Isotope], items: &mut Vec<Item>) -> Result<(), AllocError>
    ensures { OnOk result (items.new.items
        ≡ items.old.items ++ map (isotope_item item.now) (isotopes_that_occur own.now)) }
{
    for isotope in own {
        if isotope.weight > 0 {
            items.push(Item {
                symbol: item.symbol,
                label: isotope.number,
            })?;
        }
    }
    Ok(())
}
