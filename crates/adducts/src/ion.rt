//! The ion of a formula, and its mass.
ghost use Rattle.std.specs.Prelude.{◌≡◌, ◌+◌, ◌*◌, ◌^◌, ◌<◌, ◌≤◌, ◌↔◌, length, ℕ, List, IfOk, IfSome, is_some, IsTrue, pos, ◌+ℤ◌, find, unsigned_abs};
ghost use Rattle.std.specs.Option.{option_copied};
ghost use Rattle.written_items.specs.Items.{item_eq};
ghost use Rattle.element_table.specs.Elements.{TableEntries};
ghost use Rattle.written_items.specs.declared.item.Item.{Item};
ghost use Rattle.formula_text.specs.Formulas.{IsFormula, count_in, atoms_of};
ghost use Rattle.formula_text.specs.Masses.{HasItems, mass_of};
ghost use Rattle.mass_scaling.specs.Limits.{IsIonMass};
ghost use Rattle.mass_scaling.specs.declared.limits.TheConstants.{MAX_COPIES};
ghost use Rattle.adducts.specs.Adducts.{IsAdduct};
ghost use Rattle.adducts.specs.Ions.{AreCounts, IsIonOf, ion_of, ion_mass, has_item, shift_of};
ghost use Rattle.adducts.specs.AdductReader.{capped};
ghost use Rattle.adducts.specs.IonTests.{entry_count, kept_counts, found_count, finds_what_is_lost, are_within_limits};
ghost use Rattle.adducts.specs.IonTests.{has_few_atoms, has_few_of_each, has_few_of_own, has_few_of_others};
ghost use Rattle.adducts.specs.IonTests.{has_few_items, own_items, other_items};

use crate::adduct::Adduct;
use element_table::Table;
use formula_text::{Formula, MAX_ATOMS, MAX_ATOMS_OF_ITEM, MAX_ITEMS};
use std::alloc::{AllocError, Global};
use written_items::Item;

/// The ion of a formula: as many copies of it as the adduct says, with the added atoms and without those lost. `None`
/// exactly where the ion isn't defined: a count would be below 0, or the counts are no formula within the limits.
pub fn ion_of(
    alloc: Global,
    formula: &Formula,
    adduct: &Adduct,
) -> Result<Option<Formula>, AllocError>
    ensures ion { IfOk result (λ o. o ≡ ion_of adduct.now formula.now) }

    // It is the only ion of the formula, and is there where one is.
    ensures is { IfOk result (λ o. IfSome o (IsIonOf adduct.now formula.now)) }
    ensures only { IfOk result (λ o.
        (ion : List (Item × ℕ)) → IsIonOf adduct.now formula.now ion → o ≡ Some ion) }

    // A table that has the items of the formula and the added ones has those of the ion.
    ensures known { IfOk result (λ o. IfSome o (λ ion. (table : TableEntries) →
        HasItems table formula.now → HasItems table adduct.now.added → HasItems table ion)) }
{
    ion_as_computed(alloc, formula, adduct)
}

/// The ion as it is computed.
fn ion_as_computed(
    alloc: Global,
    formula: &Formula,
    adduct: &Adduct,
) -> Result<Option<Formula>, AllocError>
    ensures ion { IfOk result (λ o. o ≡ ion_of adduct.now formula.now) }
    ensures adduct { IsAdduct adduct.now }
    ensures formula { IsFormula formula.now }
{
    if !has_what_is_lost(formula.items(), adduct) {
        return Ok(None);
    }
    let counts = ion_counts(alloc, formula.items(), adduct)?;
    Formula::of(alloc, &counts)
}

/// The mass of the ion of a formula in 10^-12 Da: that of its atoms, less that of as many electrons as its charge
/// says. `None` exactly where the ion isn't defined. The table has each item. Takes no memory.
pub fn ion_mass(table: &Table, formula: &Formula, adduct: &Adduct) -> Option<i128>
    requires known { HasItems table.now formula.now }
    requires added_known { HasItems table.now adduct.now.added }
    requires lost_known { HasItems table.now adduct.now.lost }
    ensures mass { result ≡ ion_mass table.now adduct.now formula.now }
    ensures defined { IsTrue (is_some result) ↔ ((ion : List (Item × ℕ)) × IsIonOf adduct.now formula.now ion) }

    // It is the mass of the copies with what the adduct adds, as a window of masses takes it.
    ensures shifted { IfSome result (λ mass. mass ≡
        pos (adduct.now.copies * mass_of table.now formula.now) +ℤ shift_of table.now adduct.now) }
    ensures in_range { IfSome result IsIonMass }
{
    if has_ion(formula.items(), adduct) {
        let copies = copied_mass(adduct.copies(), formula.mass(table));
        Some(copies + adduct.shift(table))
    } else {
        None
    }
}

/// The mass of copies of a formula.
fn copied_mass(copies: u32, mass: u64) -> i128
    requires { copies ≤ MAX_COPIES }
    ensures mass { result ≡ pos (copies * mass) }
    ensures small { unsigned_abs result < 2 ^ 66 }
{
    i128::from(copies) * i128::from(mass)
}

/// Whether the counts of a formula have an ion, where no item stands twice and none has more than 10,000 atoms. Items
/// may stand in any order, also with a count of 0. Takes no memory.
pub fn has_ion(counts: &[(Item, u32)], adduct: &Adduct) -> bool
    requires { AreCounts counts.now }
    ensures ion { result ≡ is_some (ion_of adduct.now counts.now) }
    ensures defined { IsTrue result ↔ ((ion : List (Item × ℕ)) × IsIonOf adduct.now counts.now ion) }
{
    has_what_is_lost(counts, adduct) && is_within_limits(counts, adduct)
}

/// Whether the copies and the added atoms have the atoms that are lost.
fn has_what_is_lost(counts: &[(Item, u32)], adduct: &Adduct) -> bool
    ensures test { result ≡ finds_what_is_lost adduct.now counts.now }
    ensures adduct { IsAdduct adduct.now }
{
    adduct.lost().items().iter().all(|(item, lost)| u64::from(*lost)
        <= gained(adduct, item, count_in(counts, item)))
}

/// How many atoms of an item the copies and the added atoms have, of which the formula has this count.
fn gained(adduct: &Adduct, item: &Item, count: u32) -> u64
    ensures { result ≡ adduct.now.copies * count + count_in adduct.now.added item.now }
{
    u64::from(adduct.copies()) * u64::from(count) + u64::from(adduct.added().count(*item))
}

/// How many atoms of an item an ion has, where the formula has this count.
fn ion_count(adduct: &Adduct, item: &Item, count: u32) -> u64
    ensures { result ≡ entry_count adduct.now (item.now, count) }
{
    gained(adduct, item, count).saturating_sub(u64::from(adduct.lost().count(*item)))
}

/// The entry of an item.
fn entry_of<'a>(counts: &'a [(Item, u32)], item: &Item) -> Option<&'a (Item, u32)>
    ensures { option_copied result ≡ find (λ p. item_eq p.0 item.now) counts.now }
{
    counts.iter().find(|entry| entry.0 == *item)
}

/// The count of an item, 0 where it doesn't stand among the counts.
fn count_in(counts: &[(Item, u32)], item: &Item) -> u32
    ensures { result ≡ found_count counts.now item.now }
{
    match entry_of(counts, item) {
        Some((_, count)) => *count,
        None => 0,
    }
}

/// Whether an item stands among the counts.
fn has_item(counts: &[(Item, u32)], item: &Item) -> bool
    ensures { result ≡ has_item counts.now item.now }
{
    counts.iter().any(|(other, _)| other == item)
}

/// The items of the formula, and behind them the others that are added, with the counts of the ion; 2^32 - 1 for a
/// greater count.
fn ion_counts(
    alloc: Global,
    counts: &[(Item, u32)],
    adduct: &Adduct,
) -> Result<Vec<(Item, u32)>, AllocError>
    ensures { IfOk result (λ v. v.items ≡ kept_counts adduct.now counts.now) }
{
    let added = adduct.added().items();
    let own = counts.iter().map(|(item, count)| (*item, capped(ion_count(adduct, item, *count))));
    let others = added
        .iter()
        .filter(|(item, _)| !has_item(counts, item))
        .map(|(item, _)| (*item, capped(ion_count(adduct, item, 0))));
    own.chain(others).collect(alloc)
}

/// A number, 2^32 - 1 for a greater one.
fn capped(number: u64) -> u32
    ensures { result ≡ capped number }
{
    number.min(u64::from(u32::MAX)) as u32
}

/// Whether counts of an ion are within the limits of a formula, where no more atoms are lost than there are.
fn is_within_limits(counts: &[(Item, u32)], adduct: &Adduct) -> bool
    requires { AreCounts counts.now }
    ensures { result ≡ are_within_limits adduct.now counts.now }
{
    has_few_atoms(counts, adduct)
        && has_few_of_each(counts, adduct)
        && has_few_items(counts, adduct)
}

/// Whether an ion has at most 20,000 atoms.
fn has_few_atoms(counts: &[(Item, u32)], adduct: &Adduct) -> bool
    requires { AreCounts counts.now }
    ensures { result ≡ has_few_atoms adduct.now counts.now }
{
    let copies = u64::from(adduct.copies()) * u64::from(atoms_in(counts));
    copies + u64::from(adduct.added().atoms())
        <= u64::from(MAX_ATOMS) + u64::from(adduct.lost().atoms())
}

/// How many atoms counts have in all.
fn atoms_in(counts: &[(Item, u32)]) -> u32
    requires { atoms_of counts.now < 2 ^ 32 }
    ensures { result ≡ atoms_of counts.now }
{
    counts.iter().map(|(_, count)| *count).sum()
}

/// Whether an ion has at most 10,000 atoms of each item.
fn has_few_of_each(counts: &[(Item, u32)], adduct: &Adduct) -> bool
    ensures { result ≡ has_few_of_each adduct.now counts.now }
{
    has_few_of_own(counts, adduct) && has_few_of_others(counts, adduct)
}

/// Whether an ion has at most 10,000 atoms of each item of the formula.
fn has_few_of_own(counts: &[(Item, u32)], adduct: &Adduct) -> bool
    ensures { result ≡ has_few_of_own adduct.now counts.now }
{
    let most = u64::from(MAX_ATOMS_OF_ITEM);
    counts
        .iter()
        .all(|(item, count)| ion_count(adduct, item, *count) <= most)
}

/// Whether an ion has at most 10,000 atoms of each other item that is added.
fn has_few_of_others(counts: &[(Item, u32)], adduct: &Adduct) -> bool
    ensures { result ≡ has_few_of_others adduct.now counts.now }
{
    let most = u64::from(MAX_ATOMS_OF_ITEM);
    let added = adduct.added().items();
    added.iter().all(|(item, _)| has_item(counts, item) || ion_count(adduct, item, 0) <= most)
}

/// Whether an ion has 1 to 20 items.
fn has_few_items(counts: &[(Item, u32)], adduct: &Adduct) -> bool
    requires { AreCounts counts.now }
    ensures { result ≡ has_few_items adduct.now counts.now }
{
    let items = own_items(counts, adduct) + other_items(counts, adduct);
    1 <= items && items <= MAX_ITEMS
}

/// How many items of the formula an ion has.
fn own_items(counts: &[(Item, u32)], adduct: &Adduct) -> usize
    ensures items { result ≡ own_items adduct.now counts.now }
    ensures few { result ≤ length counts.now }
{
    counts
        .iter()
        .filter(|(item, count)| ion_count(adduct, item, *count) > 0)
        .count()
}

/// How many other items an ion has.
fn other_items(counts: &[(Item, u32)], adduct: &Adduct) -> usize
    ensures items { result ≡ other_items adduct.now counts.now }
    ensures few { result ≤ length adduct.now.added }
    ensures adduct { IsAdduct adduct.now }
{
    let added = adduct.added().items();
    added
        .iter()
        .filter(|(item, _)| !has_item(counts, item) && ion_count(adduct, item, 0) > 0)
        .count()
}
