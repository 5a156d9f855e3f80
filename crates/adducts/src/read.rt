//! The text of an adduct, read with a table.
ghost use Rattle.std.specs.Prelude.{◌≡◌, not, map, filter, IfOk, List, Option, Result, option_map, ◌≤◌};
ghost use Rattle.reader_answers.specs.Answers.{Gives};
ghost use Rattle.formula_text.specs.Masses.{HasItems};
ghost use Rattle.adducts.specs.AdductFaults.{is_memory};
ghost use Rattle.adducts.specs.declared.fault.AdductFault.{AdductFault};
ghost use Rattle.adducts.specs.Adducts.{AdductValue};
ghost use Rattle.adducts.specs.AdductReadings.{AdductReading};
ghost use Rattle.adducts.specs.AdductReader.{adduct_of, is_unknown, unknown_part, part_count};
ghost use Rattle.adducts.specs.KeptAnswers.{both_within, charge_in, adduct_with};

use crate::adduct::Adduct;
use crate::fault::AdductFault;
use crate::written::{TermPart, WrittenCharge, read_written};
use element_table::Table;
use formula_text::{Parts, PartsFault};
use mass_scaling::{MAX_COPIES, MAX_DIVISOR};
use std::alloc::{AllocError, Global};
use written_items::Item;

/// Reads the text of an adduct: `M`, which is the neutral one, or an adduct in brackets as `[2M+Na-H2O]+`.
///
/// Numbers have digits of any length, and leading zeros. The fault is the first one in the order of
/// [`AdductFault`].
pub fn read_adduct(alloc: Global, table: &Table, text: &[u8]) -> Result<Adduct, AdductFault>
    ensures gives { Gives is_memory result (adduct_of table.now text.now) }

    // That is what the text is read as, and the only answer that it may be read as.
    ensures meaning { AdductReading table.now text.now (adduct_of table.now text.now) }
    ensures only { (answer : Result AdductValue AdductFault) →
        AdductReading table.now text.now answer → answer ≡ adduct_of table.now text.now }

    // The table has each item of the adduct.
    ensures added_known { IfOk result (λ adduct. HasItems table.now adduct.added) }
    ensures lost_known { IfOk result (λ adduct. HasItems table.now adduct.lost) }
{
    adduct_of(alloc, table, text)
}

/// The adduct of a text as it is computed.
fn adduct_of(alloc: Global, table: &Table, text: &[u8]) -> Result<Adduct, AdductFault>
    ensures { Gives is_memory result (adduct_of table.now text.now) }
{
    let written = read_written(alloc, text)?;
    if let Some(place) = unknown_place(table, &written.parts) {
        return Err(AdductFault::UnknownSymbol { place });
    }
    let added = added_counts(alloc, &written.parts)?;
    let lost = lost_counts(alloc, &written.parts)?;
    let (added, lost) = both_within(Parts::of(alloc, &added), Parts::of(alloc, &lost))?;
    adduct_with(written.copies, added, lost, written.charge)
}

/// The place of the first symbol that the table doesn't have.
fn unknown_place(table: &Table, parts: &[TermPart]) -> Option<u64>
    ensures { result ≡ option_map (λ part. part.at) (unknown_part table.now parts.now) }
{
    parts
        .iter()
        .find(|part| is_unknown(table, part))
        .map(|part| part.at as u64)
}

/// Whether the table doesn't have a part's symbol.
fn is_unknown(table: &Table, part: &TermPart) -> bool
    ensures { result ≡ is_unknown table.now part.now }
{
    table.element(part.symbol).is_none()
}

/// The items that are added, with their counts.
fn added_counts(alloc: Global, parts: &[TermPart]) -> Result<Vec<(Item, u32)>, AllocError>
    ensures { IfOk result (λ v. v.items ≡ map part_count (filter (λ part. not part.is_lost) parts.now)) }
{
    parts
        .iter()
        .filter(|part| !part.is_lost)
        .map(part_count)
        .collect(alloc)
}

/// The items that are lost, with their counts.
fn lost_counts(alloc: Global, parts: &[TermPart]) -> Result<Vec<(Item, u32)>, AllocError>
    ensures { IfOk result (λ v. v.items ≡ map part_count (filter (λ part. part.is_lost) parts.now)) }
{
    parts
        .iter()
        .filter(|part| part.is_lost)
        .map(part_count)
        .collect(alloc)
}

/// The item of a part with its count.
fn part_count(part: &TermPart) -> (Item, u32)
    ensures { result ≡ part_count part.now }
{
    let item = Item {
        symbol: part.symbol,
        label: 0,
    };
    (item, part.count)
}

/// The added and the lost atoms where both are within the limits: too many atoms of either come before too many
/// elements of either.
fn both_within(
    added: Result<Parts, PartsFault>,
    lost: Result<Parts, PartsFault>,
) -> Result<(Parts, Parts), AdductFault>
    ensures { result ≡ both_within added lost }
{
    match (added, lost) {
        (Ok(added), Ok(lost)) => Ok((added, lost)),
        (Err(PartsFault::TooManyAtoms), _) => Err(AdductFault::TooManyAtoms),
        (_, Err(PartsFault::TooManyAtoms)) => Err(AdductFault::TooManyAtoms),
        (Err(PartsFault::Memory(_)), _) => Err(AdductFault::Memory),
        (_, Err(PartsFault::Memory(_))) => Err(AdductFault::Memory),
        (Err(PartsFault::TooManyElements), _) => Err(AdductFault::TooManyElements),
        (Ok(_), Err(PartsFault::TooManyElements)) => Err(AdductFault::TooManyElements),
    }
}

/// The charge that is written: 1 to 30 of its sign, and 0 of the neutral adduct.
fn charge_in(written: Option<WrittenCharge>) -> Result<i32, AdductFault>
    ensures { result ≡ charge_in written }
{
    let Some(charge) = written else {
        return Ok(0);
    };
    if charge.number == 0 || charge.number > MAX_DIVISOR {
        return Err(AdductFault::Charge);
    }
    let number = charge.number as i32;
    Ok(if charge.is_negative { -number } else { number })
}

/// The adduct of these copies, atoms and charge where they are within the limits.
fn adduct_with(
    copies: u32,
    added: Parts,
    lost: Parts,
    charge: Option<WrittenCharge>,
) -> Result<Adduct, AdductFault>
    ensures { result ≡ adduct_with copies added lost charge }
{
    if copies == 0 || copies > MAX_COPIES {
        return Err(AdductFault::Copies);
    }
    let charge = charge_in(charge)?;
    Ok(Adduct::new(copies, added, lost, charge))
}
