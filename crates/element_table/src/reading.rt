//! The bytes of a table file, read as a table.

ghost use Rattle.std.specs.Prelude.{◌≡◌, false, ◌≢◌, ◌+◌, ◌<◌, ◌^◌, [], All, drop, length, option_map, slice_index_or};
ghost use Rattle.std.specs.Prelude.{IfOk, MatchOption};
ghost use Rattle.csv_records.specs.FileRecords.{has_header};
ghost use Rattle.reader_answers.specs.Answers.{Gives, GivesAs};
ghost use Rattle.element_table.specs.Elements.{IsReference, IsTable};
ghost use Rattle.element_table.specs.Gathering.{IsTableRow, gather_from, nothing_gathered, row_entry};
ghost use Rattle.element_table.specs.ReadRow.{decimals_of, fields_of};
ghost use Rattle.element_table.specs.TableFaults.{is_memory};
ghost use Rattle.element_table.specs.TableText.{abundance_decimals, header_fields, row_of, table_of};

use crate::fault::TableFault;
use crate::gathering::Gathered;
use crate::row::{RowFields, TableRow, Version, read_row};
use crate::table::Table;
use csv_records::Records;
use std::alloc::Global;

/// Reads the bytes of a table file: a CSV file whose first record is the header
/// `symbol,number,mass,abundance,valence`, and in which each further record is an isotope of an
/// element or, under the symbol `e-`, the electron. Elements stand in the order of their first
/// records, and their isotopes by rising mass number.
///
/// Abundances have at most 9 decimals. They have at most 12 in version 2 of the file, whose header is
/// `symbol,number,mass,abundance12,valence`.
///
/// The fault is the first one in the order of the records, and in a record the first in the order
/// of [`TableFault`]; the missing electron and an element without weight come after all records.
pub fn read_table(alloc: Global, bytes: &[u8]) -> Result<Table, TableFault>
    ensures table { Gives is_memory result (table_of bytes.now) }
    ensures references { IfOk result (λ table. All (λ e. IsReference e.isotopes e.reference) table.elements) }
{
    let records = Records::read(alloc, bytes)?;
    let version = version(&records).ok_or(TableFault::Header { row: 1 })?;
    read_rows(alloc, version, &records)
}

/// The version that the first record tells, `None` where it is no header of a table file.
fn version(records: &Records) -> Option<Version>
    ensures { option_map decimals_of result ≡ abundance_decimals records.now }
{
    if is_header(records, b"abundance") {
        Some(Version::One)
    } else if is_header(records, b"abundance12") {
        Some(Version::Two)
    } else {
        None
    }
}

/// Whether the first record is the header in which abundances have this name.
fn is_header(records: &Records, abundance: &[u8]) -> bool
    ensures { result ≡ has_header (header_fields abundance.now) records.now }
{
    records.has_header(&[
        b"symbol".as_slice(),
        b"number".as_slice(),
        b"mass".as_slice(),
        abundance,
        b"valence".as_slice(),
    ])
}

/// The table of the records behind the header.
fn read_rows(alloc: Global, version: Version, records: &Records) -> Result<Table, TableFault>
    ensures table { Gives is_memory result
        (gather_from (decimals_of version) 2 nothing_gathered (drop 1 records.now)) }
    ensures within { IfOk result IsTable }
{
    let mut gathered = Gathered::new(alloc);
    for index in 1..records.len() {
        let record_number = index as u64 + 1;
        let row = read_record(version, record_number, records, index)?;
        gathered.add(record_number, row)?;
    }
    gathered.into_table(alloc)
}

/// The row of the record at an index, or the first of its own faults.
fn read_record(
    version: Version,
    record_number: u64,
    records: &Records,
    index: usize,
) -> Result<TableRow, TableFault>
    requires { index < length records.now }
    ensures row { GivesAs row_entry (λ _. false) result
        (row_of (decimals_of version) record_number (slice_index_or records.now index [])) }
    ensures within { IfOk result IsTableRow }
{
    match row_fields(records, index) {
        Some(fields) => read_row(version, record_number, &fields),
        None => Err(TableFault::FieldCount { row: record_number }),
    }
}

/// The fields of the record at an index, `None` where they aren't five.
fn row_fields(records: &Records, index: usize) -> Option<RowFields<'_>>
    requires { index < length records.now }
    ensures { MatchOption result (length (slice_index_or records.now index []) ≢ 5)
        (λ fields. slice_index_or records.now index [] ≡ fields_of fields) }
{
    if records.field_count(index) != 5 {
        return None;
    }
    Some(RowFields {
        symbol: records.field(index, 0),
        number: records.field(index, 1),
        mass: records.field(index, 2),
        abundance: records.field(index, 3),
        valence: records.field(index, 4),
    })
}
