//! What a request is over: its files, which are fetched and read, and its texts.
ghost use Rattle.std.specs.Prelude.{◌≤◌, ◌∷◌, [], All, IfOk};
ghost use Rattle.mass_scaling.specs.Limits.{IsTolerance};
ghost use Rattle.outside_ports.specs.declared.shelf.TheConstants.{MAX_LIMIT};
ghost use Rattle.alphabet_text.specs.Alphabets.{IsEntryOf};
ghost use Rattle.formula_text.specs.Masses.{HasItems};
ghost use Rattle.candidates.specs.Grounds.{IsGround};
ghost use Rattle.command_io.specs.Asked.{asks_file};
ghost use Rattle.command_io.specs.Parts.{IsPart, shelved};
ghost use Rattle.command_io.specs.Refusals.{GivesInput};
ghost use Rattle.command_io.specs.Steps.{adduct_step, alphabet_step, ground_step, rules_in, rules_names, rules_step};
ghost use Rattle.command_io.specs.Steps.{table_in, table_step, traced_in, tracer_names, tracer_step};

use crate::input_fault::InputFault;
use crate::refusal::Refusal;
use adducts::{Adduct, read_adduct};
use alphabet_text::{Alphabet, read_alphabet};
use candidates::Ground;
use command_words::Word;
use element_table::{Table, read_table};
use golden_rules::{Rules, golden, read_rules};
use mass_scaling::Tolerance;
use outside_ports::{FetchFault, Shelf};
use std::alloc::Global;

/// The most bytes of a file of elements, of a tracer, of peaks or of rules: 16,777,216.
pub const MAX_FILE_BYTES: u64 = 16_777_216;

/// The bytes of a file. It is refused where it is longer than the limit, in bytes, or can't be read.
pub fn fetch_file<H: Shelf>(
    alloc: Global,
    name: &Word,
    limit: u64,
    shelf: &mut H,
) -> Result<Vec<u8>, Refusal>
    requires { limit ≤ MAX_LIMIT }
    ensures { IsPart (λ v. v.items) (name.now ∷ []) (asks_file limit name.now)
        (shelved (H.held shelf.old) (H.asked shelf.old) (H.faults shelf.old))
        (shelved (H.held shelf.new) (H.asked shelf.new) (H.faults shelf.new)) result }
{
    let mut bytes = Vec::new(alloc);
    match shelf.fetch(name.text(), limit, &mut bytes) {
        Ok(()) => Ok(bytes),
        Err(FetchFault::Failed) => Err(Refusal::ReadFault(name.clone()?)),
        Err(FetchFault::TooLong) => Err(Refusal::Input(InputFault::FileLimit(name.clone()?))),
        Err(FetchFault::Memory) => Err(Refusal::Memory),
    }
}

/// The table that bytes are.
fn table_in(alloc: Global, bytes: &[u8]) -> Result<Table, Refusal>
    ensures { GivesInput (λ table. table) (table_in bytes.now) result }
{
    Ok(read_table(alloc, bytes)?)
}

/// The table of a file.
pub fn table_of<H: Shelf>(alloc: Global, name: &Word, shelf: &mut H) -> Result<Table, Refusal>
    ensures { IsPart (λ table. table) (name.now ∷ []) (table_step name.now)
        (shelved (H.held shelf.old) (H.asked shelf.old) (H.faults shelf.old))
        (shelved (H.held shelf.new) (H.asked shelf.new) (H.faults shelf.new)) result }
{
    let bytes = fetch_file(alloc, name, MAX_FILE_BYTES, shelf)?;
    table_in(alloc, &bytes)
}

/// A table with the weights of the tracer that bytes are.
fn traced_in(table: &Table, bytes: &[u8]) -> Result<Table, Refusal>
    ensures { GivesInput (λ table. table) (traced_in table.now bytes.now) result }
{
    Ok(table.traced(bytes)?)
}

/// A table with the weights of a tracer file, where one is named.
pub fn traced_table<H: Shelf>(
    alloc: Global,
    table: Table,
    tracer: &Option<Word>,
    shelf: &mut H,
) -> Result<Table, Refusal>
    ensures { IsPart (λ table. table) (tracer_names tracer.now) (tracer_step table tracer.now)
        (shelved (H.held shelf.old) (H.asked shelf.old) (H.faults shelf.old))
        (shelved (H.held shelf.new) (H.asked shelf.new) (H.faults shelf.new)) result }
{
    match tracer {
        None => Ok(table),
        Some(name) => {
            let bytes = fetch_file(alloc, name, MAX_FILE_BYTES, shelf)?;
            traced_in(&table, &bytes)
        }
    }
}

/// The alphabet that a text is.
fn alphabet_in(alloc: Global, table: &Table, text: &Word) -> Result<Alphabet, Refusal>
    ensures alphabet { GivesInput (λ alphabet. alphabet) (alphabet_step table.now text.now) result }
    ensures of_table { IfOk result (λ alphabet. All (IsEntryOf table.now) alphabet) }
{
    Ok(read_alphabet(alloc, table, text.text().as_bytes())?)
}

/// The adduct that a text is.
pub fn adduct_in(alloc: Global, table: &Table, text: &Word) -> Result<Adduct, Refusal>
    ensures adduct { GivesInput (λ adduct. adduct) (adduct_step table.now text.now) result }
    ensures added_known { IfOk result (λ adduct. HasItems table.now adduct.added) }
    ensures lost_known { IfOk result (λ adduct. HasItems table.now adduct.lost) }
{
    Ok(read_adduct(alloc, table, text.text().as_bytes())?)
}

/// The rules that bytes are.
fn rules_in(alloc: Global, table: &Table, bytes: &[u8]) -> Result<Rules, Refusal>
    ensures { GivesInput (λ rules. rules) (rules_in table.now bytes.now) result }
{
    Ok(read_rules(alloc, table, bytes)?)
}

/// The rules that a word names: none by `none`, those of the profile by `golden`, and else those of the file of this
/// name.
pub fn rules_of<H: Shelf>(
    alloc: Global,
    table: &Table,
    word: &Word,
    shelf: &mut H,
) -> Result<Rules, Refusal>
    ensures { IsPart (λ rules. rules) (rules_names word.now) (rules_step table.now word.now)
        (shelved (H.held shelf.old) (H.asked shelf.old) (H.faults shelf.old))
        (shelved (H.held shelf.new) (H.asked shelf.new) (H.faults shelf.new)) result }
{
    let text = word.text().as_bytes();
    if text == b"none".as_slice() {
        return Ok(Rules::none(alloc));
    }
    if text == b"golden".as_slice() {
        return Ok(golden(alloc, table)?);
    }
    let bytes = fetch_file(alloc, word, MAX_FILE_BYTES, shelf)?;
    rules_in(alloc, table, &bytes)
}

/// What candidates are searched on.
pub fn ground_of<H: Shelf>(
    alloc: Global,
    table: Table,
    tolerance: Tolerance,
    alphabet: &Word,
    adduct: &Word,
    rules: &Word,
    shelf: &mut H,
) -> Result<Ground, Refusal>
    requires { IsTolerance tolerance }
    ensures part { IsPart (λ premises. premises) (rules_names rules.now)
        (ground_step table tolerance alphabet.now adduct.now rules.now)
        (shelved (H.held shelf.old) (H.asked shelf.old) (H.faults shelf.old))
        (shelved (H.held shelf.new) (H.asked shelf.new) (H.faults shelf.new)) result }
    ensures premises { IfOk result IsGround }
{
    let alphabet = alphabet_in(alloc, &table, alphabet)?;
    let adduct = adduct_in(alloc, &table, adduct)?;
    let rules = rules_of(alloc, &table, rules, shelf)?;
    Ok(Ground::of(alloc, table, alphabet, adduct, tolerance, rules)?)
}
