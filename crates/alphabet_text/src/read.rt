//! The text of an alphabet, read with a table.
ghost use Rattle.std.specs.Prelude.{◌≡◌, List, Result, IfOk, All};
ghost use Rattle.reader_answers.specs.Answers.{Gives};
ghost use Rattle.alphabet_text.specs.declared.entries.AlphabetEntry.{AlphabetEntry};
ghost use Rattle.alphabet_text.specs.declared.fault.AlphabetFault.{AlphabetFault};
ghost use Rattle.alphabet_text.specs.AlphabetFaults.{is_memory};
ghost use Rattle.alphabet_text.specs.AlphabetReadings.{AlphabetReading};
ghost use Rattle.alphabet_text.specs.AlphabetAnswers.{alphabet_of};
ghost use Rattle.alphabet_text.specs.Alphabets.{IsEntryOf};

use crate::alphabet::Alphabet;
use crate::entries::{MAX_ENTRIES, entries_behind};
use crate::fault::AlphabetFault;
use crate::order::in_order;
use crate::written::{first_high_place, read_entries};
use element_table::Table;
use std::alloc::Global;

/// Reads the text of an alphabet: one or more entries, each an element's symbol or a labelled isotope of the table
/// as `[13C]`, with a range of counts behind it as `C1-50` or none, which is 0 to 10,000.
///
/// The fault is the first one in the order of [`AlphabetFault`]; unknown symbols, repeated items and empty ranges
/// come by entries.
pub fn read_alphabet(alloc: Global, table: &Table, text: &[u8]) -> Result<Alphabet, AlphabetFault>
    ensures gives { Gives is_memory result (alphabet_of table.now text.now) }

    // That is what the text is read as, and the only answer that it may be read as.
    ensures meaning { AlphabetReading table.now text.now (alphabet_of table.now text.now) }
    ensures only { (answer : Result (List AlphabetEntry) AlphabetFault) →
        AlphabetReading table.now text.now answer → answer ≡ alphabet_of table.now text.now }
    ensures of_table { IfOk result (λ alphabet. All (IsEntryOf table.now) alphabet) }
{
    if text.is_empty() {
        return Err(AlphabetFault::BadText { place: 0 });
    }
    let written = read_entries(alloc, text)?;
    if let Some(place) = first_high_place(&written) {
        return Err(AlphabetFault::BadText {
            place: place as u64,
        });
    }
    let entries = entries_behind(alloc, table, &written)?;
    if entries.len() > MAX_ENTRIES {
        return Err(AlphabetFault::TooMany);
    }
    let entries = in_order(alloc, entries)?;
    Ok(Alphabet::of(alloc, &entries)?)
}
