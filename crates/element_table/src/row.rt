//! One record behind the header: its fields, and the row that they spell.

ghost use Rattle.std.specs.Prelude.{◌≡◌, false, ◌≤◌, IfSome, IfOk};
ghost use Rattle.reader_answers.specs.Answers.{GivesAs};
ghost use Rattle.element_table.specs.Limits.{max_mass_number, max_valence};
ghost use Rattle.element_table.specs.Gathering.{IsTableRow, row_entry};
ghost use Rattle.element_table.specs.ReadRow.{decimals_of, fields_of, ranges_of, row_with};
ghost use Rattle.element_table.specs.TableText.{numbers_of, row_of, weight_within};

use crate::element::Isotope;
use crate::fault::TableFault;
use crate::limits::{
    FULL_ABUNDANCE, MAX_ELECTRON_MASS, MAX_ISOTOPE_MASS, MAX_MASS_NUMBER, MAX_VALENCE,
    MIN_ELECTRON_MASS, MIN_ISOTOPE_MASS,
};
use crate::symbol::Symbol;
use fixed_decimal::{Fixed, whole_within};

/// What one record of a table file says behind the header.
#[derive(Clone, Copy)]
pub(crate) enum TableRow {
    /// The electron's mass in 10^-12 Da.
    Electron {
        mass: u64,
    },
    /// An isotope of the element of this symbol and this valence.
    OfIsotope {
        symbol: Symbol,
        valence: u32,
        isotope: Isotope,
    },
}

/// The texts of a record's five fields.
#[derive(Clone, Copy)]
pub(crate) struct RowFields<'a> {
    pub(crate) symbol: &'a [u8],
    pub(crate) number: &'a [u8],
    pub(crate) mass: &'a [u8],
    pub(crate) abundance: &'a [u8],
    pub(crate) valence: &'a [u8],
}

/// The version of a table file, which its header tells.
#[derive(Clone, Copy)]
pub(crate) enum Version {
    /// Abundances have at most 9 decimals.
    One,
    /// Abundances have at most 12 decimals.
    Two,
}

/// The ranges of a record's numbers: the mass number, the mass in 10^-12 Da, the weight in units of 10^-12
/// and the valence, the last two from 0 on.
struct Ranges {
    number_from: u64,
    number_to: u64,
    mass_from: u64,
    mass_to: u64,
    weight_to: u64,
    valence_to: u64,
}

const ISOTOPE_RANGES: Ranges = Ranges {
    number_from: 1,
    number_to: MAX_MASS_NUMBER as u64,
    mass_from: MIN_ISOTOPE_MASS,
    mass_to: MAX_ISOTOPE_MASS,
    weight_to: FULL_ABUNDANCE,
    valence_to: MAX_VALENCE as u64,
};

const ELECTRON_RANGES: Ranges = Ranges {
    number_from: 0,
    number_to: 0,
    mass_from: MIN_ELECTRON_MASS,
    mass_to: MAX_ELECTRON_MASS,
    weight_to: 0,
    valence_to: 0,
};

/// The last decimal of an abundance of version 1, 10^-9, in units of 10^-12.
const VERSION_1_UNIT: u64 = 1_000;

/// The numbers of a record, in the units of its ranges.
#[derive(Clone, Copy)]
struct Numbers {
    number: u32,
    mass: u64,
    weight: u64,
    valence: u32,
}

/// The row of the record of this number, or the first fault among its fields.
pub(crate) fn read_row(
    version: Version,
    record_number: u64,
    fields: &RowFields<'_>,
) -> Result<TableRow, TableFault>
    ensures row { GivesAs row_entry (λ _. false) result
        (row_of (decimals_of version) record_number (fields_of fields.now)) }
    ensures within { IfOk result IsTableRow }
{
    if fields.symbol == b"e-".as_slice() {
        let numbers = read_numbers(version, record_number, &ELECTRON_RANGES, fields)?;
        return Ok(TableRow::Electron { mass: numbers.mass });
    }
    let symbol = Symbol::of(fields.symbol).ok_or(TableFault::Symbol { row: record_number })?;
    let numbers = read_numbers(version, record_number, &ISOTOPE_RANGES, fields)?;
    Ok(TableRow::OfIsotope {
        symbol,
        valence: numbers.valence,
        isotope: Isotope {
            number: numbers.number,
            mass: numbers.mass,
            weight: numbers.weight,
        },
    })
}

/// The numbers of the record of this number, or the first fault among them.
#[tactic(auto, unfolding(crate::specs::TableText::numbers_of))]
fn read_numbers(
    version: Version,
    record_number: u64,
    ranges: &Ranges,
    fields: &RowFields<'_>,
) -> Result<Numbers, TableFault>
    requires number { ranges.now.number_to ≤ max_mass_number }
    requires valence { ranges.now.valence_to ≤ max_valence }
    ensures numbers { GivesAs (row_with fields.now.symbol.now) (λ _. false) result
        (numbers_of (decimals_of version) record_number (ranges_of ranges.now) fields.now.symbol.now
        fields.now.number.now fields.now.mass.now fields.now.abundance.now fields.now.valence.now) }
{
    let number = whole_within(fields.number, ranges.number_from, ranges.number_to).ok_or(
        TableFault::MassNumber { row: record_number },
    )?;
    let mass = Fixed::<12>::read_within(fields.mass, ranges.mass_from, ranges.mass_to).ok_or(
        TableFault::Mass { row: record_number },
    )?;
    let weight = weight_within(version, ranges.weight_to, fields.abundance).ok_or(
        TableFault::Abundance { row: record_number },
    )?;
    let valence = whole_within(fields.valence, 0, ranges.valence_to).ok_or(TableFault::Valence {
        row: record_number,
    })?;
    Ok(Numbers {
        number: number as u32,
        mass: mass.units(),
        weight,
        valence: valence as u32,
    })
}

/// The weight in units of 10^-12 of the text of an abundance, `None` where it is none of the version or above the
/// limit.
fn weight_within(version: Version, limit: u64, text: &[u8]) -> Option<u64>
    ensures { result ≡ weight_within (decimals_of version) limit text.now }
{
    match version {
        Version::One => {
            let abundance = Fixed::<9>::read_within(text, 0, limit / VERSION_1_UNIT)?;
            Some(abundance.units() * VERSION_1_UNIT)
        }
        Version::Two => {
            let abundance = Fixed::<12>::read_within(text, 0, limit)?;
            Some(abundance.units())
        }
    }
}
