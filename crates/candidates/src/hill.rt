//! The items of an alphabet in Hill order, found once for all count lists.
ghost use Rattle.std.specs.Prelude.{◌≡◌, ◌≢◌, ◌+◌, ◌<◌, ◌≤◌, ℕ, AllPairs, All, IfOk, Ok, length, take};
ghost use Rattle.std.specs.List.{zip};
ghost use Rattle.formula_text.specs.Formulas.{IsItem, has_carbon, parts_of, sum_of};
ghost use Rattle.formula_text.specs.Limits.{max_items};
ghost use Rattle.candidates.specs.HillOrders.{IsHillOrder, is_carbon, numbered, others_of, with_counts};

use formula_text::{Parts, PartsFault};
use std::alloc::{AllocError, Global};
use written_items::Item;

/// Items in Hill order. The count of each is the number of its place among the items, counted from 1.
#[derive(Debug, Drop)]
pub(crate) struct HillOrder {
    /// All items, in the order of formulas with carbon.
    with_carbon: Parts,
    /// The items but carbon, in the order of formulas without.
    without: Parts,
}

impl HillOrder {
    /// The order of different items.
    pub fn of(alloc: Global, items: &[Item]) -> Result<HillOrder, AllocError>
        requires few { length items.now ≤ max_items }
        requires different { AllPairs (λ a b. a ≢ b) items.now }
        ensures { IfOk result (IsHillOrder items.now) }
    {
        let numbered = numbered(alloc, items)?;
        let others = others_of(alloc, &numbered)?;
        Ok(HillOrder {
            with_carbon: sum_of(alloc, &numbered)?,
            without: sum_of(alloc, &others)?,
        })
    }

    /// Writes the formula of these counts of the items to the front of `room`: the items that have an atom, in Hill
    /// order. Tells how many there are.
    pub fn write(&self, items: &[Item], counts: &[u32], room: &mut [(Item, u32)]) -> usize
        requires order { IsHillOrder items.now self.now }
        requires different { AllPairs (λ a b. a ≢ b) items.now }
        requires one_count_each { length counts.now ≡ length items.now }
        requires room { length items.now ≤ length room.old }
        ensures formula { take result room.new ≡ sum_of (zip items.now counts.now) }
        ensures items { All (λ p. IsItem p.0) (take result room.new) }
        ensures few { result ≤ length room.old }
    {
        if has_carbon(items, counts) {
            write_counts(self.with_carbon.items(), counts, room)
        } else {
            write_counts(self.without.items(), counts, room)
        }
    }
}

/// Whether an item is of carbon.
fn is_carbon(item: &Item) -> bool
    ensures { result ≡ is_carbon item.now }
{
    matches!(item.symbol.text(), [b'C'])
}

/// Whether there is an atom of carbon.
fn has_carbon(items: &[Item], counts: &[u32]) -> bool
    ensures { result ≡ has_carbon (zip items.now counts.now) }
{
    items
        .iter()
        .zip(counts)
        .any(|(item, count)| is_carbon(item) && *count > 0)
}

/// Items with the numbers of their places, counted from 1.
fn numbered(alloc: Global, items: &[Item]) -> Result<Vec<(Item, u32)>, AllocError>
    requires { length items.now ≤ max_items }
    ensures { IfOk result (λ v. v.items ≡ numbered items.now) }
{
    let mut numbered = Vec::new(alloc);
    for (place, item) in items.iter().enumerate() {
        numbered.push((*item, place as u32 + 1))?;
    }
    Ok(numbered)
}

/// The items but carbon.
fn others_of(alloc: Global, items: &[(Item, u32)]) -> Result<Vec<(Item, u32)>, AllocError>
    ensures { IfOk result (λ v. v.items ≡ others_of items.now) }
{
    items
        .iter()
        .filter(|(item, _)| !is_carbon(item))
        .copied()
        .collect(alloc)
}

/// The sum of items that are within the limits of a formula.
fn sum_of(alloc: Global, items: &[(Item, u32)]) -> Result<Parts, AllocError>
    requires { parts_of items.now ≡ Ok (sum_of items.now) }
    ensures { IfOk result (λ parts. parts ≡ sum_of items.now) }
{
    match Parts::of(alloc, items) {
        Ok(parts) => Ok(parts),
        Err(PartsFault::Memory(e)) => Err(e),
        Err(PartsFault::TooManyAtoms) => unreachable!(),
        Err(PartsFault::TooManyElements) => unreachable!(),
    }
}

/// Writes the entries of an order with their counts to the front of `room`, those that have an atom. Tells how many
/// there are.
fn write_counts(order: &[(Item, u32)], counts: &[u32], room: &mut [(Item, u32)]) -> usize
    requires places { All (λ p. (1 ≤ p.1) × (p.1 ≤ length counts.now)) order.now }
    requires room { length order.now ≤ length room.old }
    ensures entries { take result room.new ≡ with_counts counts.now order.now }
    ensures few { result ≤ length order.now }
{
    let mut written = 0;
    for (item, number) in order {
        let count = counts[*number as usize - 1];
        if count > 0 {
            room[written] = (*item, count);
            written += 1;
        }
    }
    written
}
