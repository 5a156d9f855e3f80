//! The sum of counts of items.
ghost use Rattle.std.specs.Prelude.{◌≡◌, ◌+◌, ◌≤◌, ◌<◌, ◌^◌, All, IsTrue, OnOk, IfOk, nat_lt, find};
ghost use Rattle.std.specs.Option.{option_copied, option_map_or};
ghost use Rattle.std.specs.List.{list_any, prefix_len};
ghost use Rattle.std.specs.Ordering.{is_gt};
ghost use Rattle.std.specs.FinMap.{is_sorted};
ghost use Rattle.written_items.specs.Items.{item_eq};
ghost use Rattle.element_table.specs.SymbolText.{is_symbol};
ghost use Rattle.formula_text.specs.HillOrder.{hill_cmp};
ghost use Rattle.formula_text.specs.Limits.{max_atoms, max_atoms_of_item};
ghost use Rattle.formula_text.specs.Formulas.{IsItem, atoms_of, with_part, sum_of};

use crate::hill::{has_carbon, hill_cmp, hill_rank};
use crate::limits::{MAX_ATOMS, MAX_ATOMS_OF_ITEM, MAX_ITEMS};
use std::alloc::{AllocError, Global};
use std::cmp::Ordering;
use written_items::Item;

/// Whether the parts have more than 20,000 atoms in all.
pub fn has_many_atoms(parts: &[(Item, u32)]) -> bool
    ensures { result ≡ nat_lt max_atoms (atoms_of parts.now) }
{
    let mut atoms = 0;
    for (_, count) in parts {
        if *count > MAX_ATOMS - atoms {
            return true;
        }
        atoms += *count;
    }
    false
}

/// Whether there are more than 10,000 atoms of an item.
pub fn has_many_of_one(items: &[(Item, u32)]) -> bool
    ensures { result ≡ list_any (λ p. nat_lt max_atoms_of_item p.1) items.now }
{
    items.iter().any(|(_, count)| *count > MAX_ATOMS_OF_ITEM)
}

/// The first entry of an item.
fn entry_of<'a>(items: &'a [(Item, u32)], item: &Item) -> Option<&'a (Item, u32)>
    ensures { option_copied result ≡ find (λ p. item_eq p.0 item.now) items.now }
{
    items.iter().find(|entry| entry.0 == *item)
}

/// The count of the first entry of an item, 0 where there is none.
pub fn count_of(items: &[(Item, u32)], item: &Item) -> u32
    ensures { result
        ≡ option_map_or (λ p. p.1) (find (λ p. item_eq p.0 item.now) items.now) 0 }
{
    match entry_of(items, item) {
        Some((_, count)) => *count,
        None => 0,
    }
}

/// How many of the items stand before this one.
fn place_of(items: &[(Item, u32)], carbon: bool, item: &Item) -> usize
    ensures place { result ≡ prefix_len (λ p. is_gt (hill_cmp carbon item.now p.0)) items.now }
    ensures symbol { IsTrue (is_symbol item.now.symbol) }
{
    let rank = hill_rank(carbon, &item.symbol);
    items
        .iter()
        .take_while(|(other, _)| hill_cmp(carbon, rank, item, other) == Ordering::Greater)
        .count()
}

/// Adds atoms of an item, in its place.
fn add_part(
    items: &mut Vec<(Item, u32)>,
    carbon: bool,
    item: Item,
    count: u32,
) -> Result<(), AllocError>
    requires sorted { IsTrue (is_sorted (hill_cmp carbon) items.old.items) }
    requires room { atoms_of items.old.items + count < 2 ^ 32 }
    ensures sum { OnOk result (items.new.items ≡ with_part carbon items.old.items (item, count)) }
    ensures item { IsItem item }
{
    let place = place_of(items, carbon, &item);
    if place < items.len() && items[place].0 == item {
        items[place].1 += count;
    } else {
        items.insert(place, (item, count))?;
    }
    Ok(())
}

/// Equal items added up, without those that have no atom, in Hill order.
pub fn sum_of(alloc: Global, parts: &[(Item, u32)]) -> Result<Vec<(Item, u32)>, AllocError>
    requires { atoms_of parts.now ≤ max_atoms }
    ensures sum { IfOk result (λ v. v.items ≡ sum_of parts.now) }
    ensures items { IfOk result (λ v. All (λ p. IsItem p.0) v.items) }
{
    let carbon = has_carbon(parts);
    let mut items = Vec::with_capacity(alloc, parts.len().min(MAX_ITEMS))?;
    for (item, count) in parts {
        if *count > 0 {
            add_part(&mut items, carbon, *item, *count)?;
        }
    }
    Ok(items)
}
