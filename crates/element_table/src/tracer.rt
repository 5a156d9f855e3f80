//! The records of a tracer file, and the weights that they give the elements of a table.

ghost use Rattle.std.specs.Prelude.{◌≡◌, ◌≢◌, ◌≤◌, ◌+◌, ◌<◌, ◌^◌, ◌&&◌, ◌==◌, ◌∷◌, [], drop, length, map};
ghost use Rattle.std.specs.Prelude.{slice_index_or, find, IfOk, MatchOption};
ghost use Rattle.std.specs.List.{list_any};
ghost use Rattle.std.specs.Option.{option_copied};
ghost use Rattle.element_table.specs.Elements.{element_of};
ghost use Rattle.element_table.specs.Limits.{full_abundance};
ghost use Rattle.element_table.specs.ReadRow.{AreTracerRows};
ghost use Rattle.reader_answers.specs.RecordRows.{rows_after};
ghost use Rattle.reader_answers.specs.Answers.{GivesAs};
ghost use Rattle.csv_records.specs.FileRecords.{has_header};
ghost use Rattle.element_table.specs.TracerFaults.{is_memory};
ghost use Rattle.element_table.specs.Tracers.{is_named, is_of_isotope, isotope_spelled, is_weightless_by};
ghost use Rattle.element_table.specs.Tracers.{repeated_after, traced_element, traced_elements, traced_isotope};
ghost use Rattle.element_table.specs.Tracers.{tracer_header, tracer_row_of, tracer_rows, tracer_weight, weight_if};

use crate::element::{Element, Isotope};
use crate::limits::{FULL_ABUNDANCE, MAX_MASS_NUMBER};
use crate::symbol::Symbol;
use crate::table::Table;
use crate::tracer_fault::TracerFault;
use csv_records::Records;
use fixed_decimal::{Fixed, whole_within};
use std::alloc::AllocError;

/// What one record of a tracer file says behind the header: the weight of an isotope in units of 10^-12.
#[derive(Clone, Copy)]
pub(crate) struct TracerRow {
    pub(crate) symbol: Symbol,
    pub(crate) number: u32,
    pub(crate) weight: u64,
}

/// The texts of a record's three fields.
#[derive(Clone, Copy)]
struct TracerFields<'a> {
    symbol: &'a [u8],
    number: &'a [u8],
    abundance: &'a [u8],
}

/// The rows of the records, or the first fault.
pub(crate) fn read_rows(table: &Table, records: &Records) -> Result<Vec<TracerRow>, TracerFault>
    ensures rows { GivesAs (λ rows. rows.items) is_memory result (tracer_rows table.now records.now) }
    ensures within { IfOk result (λ rows. AreTracerRows rows.items) }
{
    if !is_header(records) {
        return Err(TracerFault::Header { row: 1 });
    }
    let mut rows = Vec::new(table.allocator());
    for index in 1..records.len() {
        let record_number = index as u64 + 1;
        let row = read_record(table, record_number, records, index)?;
        if is_repeated(&rows, &row) {
            return Err(TracerFault::Repeated { row: record_number });
        }
        rows.push(row)?;
    }
    Ok(rows)
}

/// Whether the first record is the header.
fn is_header(records: &Records) -> bool
    ensures { result ≡ has_header tracer_header records.now }
{
    records.has_header(&[
        b"symbol".as_slice(),
        b"number".as_slice(),
        b"abundance12".as_slice(),
    ])
}

/// The fields of the record at an index, `None` where they aren't three.
fn row_fields(records: &Records, index: usize) -> Option<TracerFields<'_>>
    requires { index < length records.now }
    ensures { MatchOption result (length (slice_index_or records.now index []) ≢ 3) (λ fields.
        slice_index_or records.now index [] ≡ fields.symbol.now ∷ fields.number.now ∷ fields.abundance.now ∷ []) }
{
    if records.field_count(index) != 3 {
        return None;
    }
    Some(TracerFields {
        symbol: records.field(index, 0),
        number: records.field(index, 1),
        abundance: records.field(index, 2),
    })
}

/// The row of the record at an index, or the first of its own faults.
fn read_record(
    table: &Table,
    record_number: u64,
    records: &Records,
    index: usize,
) -> Result<TracerRow, TracerFault>
    requires { index < length records.now }
    ensures row { tracer_row_of table.now record_number (slice_index_or records.now index []) ≡ result }
    ensures within { IfOk result (λ row. row.weight ≤ full_abundance) }
{
    match row_fields(records, index) {
        Some(fields) => read_row(table, record_number, &fields),
        None => Err(TracerFault::FieldCount { row: record_number }),
    }
}

/// The row of the fields of the record of this number, or the first fault among them.
#[tactic(auto, unfolding(crate::specs::Tracers::tracer_row_of))]
fn read_row(
    table: &Table,
    record_number: u64,
    fields: &TracerFields<'_>,
) -> Result<TracerRow, TracerFault>
    ensures row { tracer_row_of table.now record_number
        (fields.now.symbol.now ∷ fields.now.number.now ∷ fields.now.abundance.now ∷ []) ≡ result }
    ensures within { IfOk result (λ row. row.weight ≤ full_abundance) }
{
    let element = element_spelled(table, fields.symbol).ok_or(TracerFault::Symbol {
        row: record_number,
    })?;
    let isotope = isotope_spelled(element, fields.number).ok_or(TracerFault::MassNumber {
        row: record_number,
    })?;
    let weight = Fixed::<12>::read_within(fields.abundance, 0, FULL_ABUNDANCE).ok_or(
        TracerFault::Abundance { row: record_number },
    )?;
    Ok(TracerRow {
        symbol: element.symbol(),
        number: isotope.number,
        weight: weight.units(),
    })
}

/// The element whose symbol a text spells, `None` where the table has none.
fn element_spelled<'a>(table: &'a Table, text: &[u8]) -> Option<&'a Element>
    ensures { option_copied result ≡ element_of table.now text.now }
{
    table
        .elements()
        .iter()
        .find(|element| element.symbol().text() == text)
}

/// The isotope whose mass number a text spells, `None` where the element has none.
fn isotope_spelled<'a>(element: &'a Element, text: &[u8]) -> Option<&'a Isotope>
    ensures { option_copied result ≡ isotope_spelled element.now text.now }
{
    let number = whole_within(text, 1, MAX_MASS_NUMBER as u64)?;
    element.isotope(number as u32)
}

/// Whether one of the rows is of the isotope of this row.
fn is_repeated(rows: &[TracerRow], row: &TracerRow) -> bool
    ensures { result ≡ list_any (is_of_isotope row.now.symbol row.now.number) rows.now }
{
    rows.iter().any(|earlier| earlier.symbol == row.symbol && earlier.number == row.number)
}

/// The isotopes of the element of this symbol with the weights of the rows.
pub(crate) fn traced_isotopes(
    rows: &[TracerRow],
    symbol: Symbol,
    isotopes: &Vec<Isotope>,
) -> Result<Vec<Isotope>, AllocError>
    ensures { IfOk result (λ traced. traced.items ≡ map (traced_isotope rows.now symbol) isotopes.now.items) }
{
    isotopes
        .iter()
        .map(|isotope| Isotope {
            number: isotope.number,
            mass: isotope.mass,
            weight: tracer_weight(rows, symbol, isotope.number),
        })
        .collect(*isotopes.allocator())
}

/// The weight that the rows give an isotope, 0 where they don't have it.
fn tracer_weight(rows: &[TracerRow], symbol: Symbol, number: u32) -> u64
    ensures { result ≡ tracer_weight rows.now symbol number }
{
    match row_of_isotope(rows, symbol, number) {
        Some(row) => row.weight,
        None => 0,
    }
}

/// The row of an isotope, `None` where the rows don't have it.
fn row_of_isotope(rows: &[TracerRow], symbol: Symbol, number: u32) -> Option<&TracerRow>
    ensures { option_copied result ≡ find (is_of_isotope symbol number) rows.now }
{
    rows.iter()
        .find(|row| row.symbol == symbol && row.number == number)
}

/// Whether one of the rows is of the element of this symbol.
fn is_named(rows: &[TracerRow], symbol: Symbol) -> bool
    ensures { result ≡ is_named rows.now symbol }
{
    rows.iter().any(|row| row.symbol == symbol)
}

/// The elements with the weights of the rows.
pub(crate) fn traced_elements(
    rows: &[TracerRow],
    elements: &Vec<Element>,
) -> Result<Vec<Element>, AllocError>
    requires { AreTracerRows rows.now }
    ensures { IfOk result (λ traced. traced.items ≡ traced_elements rows.now elements.now.items) }
{
    let mut traced = Vec::with_capacity(*elements.allocator(), elements.len())?;
    for element in elements {
        traced.push(traced_element(rows, element)?)?;
    }
    Ok(traced)
}

/// An element with the weights of the rows, where they have an isotope of it.
fn traced_element(rows: &[TracerRow], element: &Element) -> Result<Element, AllocError>
    requires { AreTracerRows rows.now }
    ensures { IfOk result (λ traced. traced ≡ traced_element rows.now element.now) }
{
    if is_named(rows, element.symbol()) {
        element.with_weights(rows)
    } else {
        element.clone()
    }
}

/// The first element that the rows have and that has no weight.
pub(crate) fn weightless_element<'a>(
    rows: &[TracerRow],
    elements: &'a [Element],
) -> Option<&'a Element>
    ensures { option_copied result ≡ find (is_weightless_by rows.now) elements.now }
{
    elements.iter().find(|element| is_named(rows, element.symbol()) && element.total() == 0)
}
