//! The entries of an alphabet: written items with their masses in a table.
ghost use Rattle.std.specs.Prelude.{◌≡◌, ◌<◌, ◌≤◌, [], false, length, All, IfOk, IfSome};
ghost use Rattle.std.specs.Option.{option_copied};
ghost use Rattle.element_table.specs.Elements.{IsTable};
ghost use Rattle.reader_answers.specs.Answers.{Gives};
ghost use Rattle.alphabet_text.specs.AlphabetFaults.{is_memory};
ghost use Rattle.decompose.specs.declared.limits.TheConstants.{MAX_COUNT};
ghost use Rattle.alphabet_text.specs.Alphabets.{AreEntries, IsMassOfIsotope};
ghost use Rattle.alphabet_text.specs.WrittenEntries.{entry_behind, entries_behind, has_item, answer_items};
ghost use Rattle.alphabet_text.specs.WrittenEntries.{table_entry, leading_isotope};

use crate::fault::AlphabetFault;
use crate::written::WrittenEntry;
use decompose::Limit;
use element_table::{Isotope, Table};
use std::alloc::Global;
use written_items::{Item, LeadingItem};

/// The most entries of an alphabet.
pub const MAX_ENTRIES: usize = 20;

/// An item that formulas may have.
#[derive(Clone, Copy, Debug, PartialEq, Eq)]
pub struct AlphabetEntry {
    /// The item.
    pub item: Item,
    /// The mass of an atom of it in 10^-12 Da, 0.5 to 400 Da.
    pub mass: u64,
    /// How many atoms of it a formula may have.
    pub limit: Limit,
}

/// The entries of what is written, in the same order, or the first fault.
pub(crate) fn entries_behind(
    alloc: Global,
    table: &Table,
    written: &[WrittenEntry],
) -> Result<Vec<AlphabetEntry>, AlphabetFault>
    requires { All (λ w. w.range.limit.high ≤ MAX_COUNT) written.now }
    ensures entries { Gives is_memory (answer_items result) (entries_behind table.now [] written.now) }
    ensures sound { IfOk result (λ v. AreEntries v.items) }
    ensures table { 0 < length written.now → IsTable table.now }
{
    let mut entries = Vec::new(alloc);
    for part in written {
        let entry = entry_behind(table, &entries, part)?;
        entries.push(entry)?;
    }
    Ok(entries)
}

/// The entry that is written, or its first fault. The earlier entries are those of the same text.
fn entry_behind(
    table: &Table,
    earlier: &[AlphabetEntry],
    written: &WrittenEntry,
) -> Result<AlphabetEntry, AlphabetFault>
    ensures entry { result ≡ entry_behind table.now earlier.now written.now }
    ensures isotope { IfOk result (λ e. IsMassOfIsotope e.mass) }
    ensures limit { IfOk result (λ e. e.limit ≡ written.now.range.limit) }
    ensures ordered { IfOk result (λ e. e.limit.low ≤ e.limit.high) }
    ensures new { IfOk result (λ e. has_item earlier.now e.item ≡ false) }
    ensures table { IsTable table.now }
{
    let place = written.at as u64;
    let Some(entry) = table_entry(table, written) else {
        return Err(AlphabetFault::UnknownSymbol { place });
    };
    if has_item(earlier, &entry.item) {
        return Err(AlphabetFault::Repeated { place });
    }
    if entry.limit.high < entry.limit.low {
        return Err(AlphabetFault::EmptyRange { place });
    }
    Ok(entry)
}

/// Whether an item stands among the entries.
fn has_item(entries: &[AlphabetEntry], item: &Item) -> bool
    ensures { result ≡ has_item entries.now item.now }
{
    entries.iter().any(|entry| entry.item == *item)
}

/// The entry of an item that the table has.
fn table_entry(table: &Table, written: &WrittenEntry) -> Option<AlphabetEntry>
    ensures entry { result ≡ table_entry table.now written.now }
    ensures isotope { IfSome result (λ e. IsMassOfIsotope e.mass) }
    ensures limit { IfSome result (λ e. e.limit ≡ written.now.range.limit) }
    ensures table { IsTable table.now }
{
    let isotope = leading_isotope(table, &written.item)?;
    Some(AlphabetEntry {
        item: Item {
            symbol: written.item.symbol,
            label: written.item.number.unwrap_or(0),
        },
        mass: isotope.mass,
        limit: written.range.limit,
    })
}

/// The isotope of an item's atoms: the one in brackets, or the element's reference isotope.
fn leading_isotope<'t>(table: &'t Table, item: &LeadingItem) -> Option<&'t Isotope>
    ensures isotope { option_copied result ≡ leading_isotope table.now item.now }
    ensures within { IfSome result (λ i. IsMassOfIsotope i.now.mass) }
    ensures table { IsTable table.now }
{
    let element = table.element(item.symbol)?;
    match item.number {
        None => Some(element.reference()),
        Some(number) => element.isotope(number),
    }
}
