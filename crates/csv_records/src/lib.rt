//! The records of a CSV file, as lists of fields of bytes.
//!
//! Commas part the fields, double quotes hold a field, and a doubled quote within them is one.
//! Records may differ in length, no record is a header, and no field need be UTF-8.
//!
//! A [`Records`] is seen by contracts as the list of its records, each the list of its fields without the
//! blanks at both ends. The crate stands on `csv`. The layer above reads the bytes of a file by
//! [`Records::read`], tests its header by [`Records::has_header`], and takes each field by its record and
//! column, both counted from 0.
#![tactic(auto)]

ghost use Rattle.std.specs.Prelude.{◌≡◌, ◌<◌, ◌≤◌, ◌==◌, [], IfOk, length, map, slice_index_or};
ghost use Rattle.std.specs.List.{prefix_len, suffix_len};
ghost use Rattle.csv.specs.Reading.{default_config, records, strip_bom};
ghost use Rattle.csv.specs.Records.{fields_of};
ghost use Rattle.csv_records.specs.FileRecords.{IsTrimmed, file_records, has_header, is_blank, trimmed_field};

#[cfg(test)]
mod tests;

use csv::{ByteRecord, ErrorKind, ReaderBuilder};
use std::alloc::{AllocError, Global};
use std::marker::Model;

/// The records of a file, each the list of its fields without the blanks at both ends.
#[derive(Drop)]
pub struct Records {
    // A field is trimmed when it is asked for, so that none is copied.
    rows: Vec<ByteRecord>,
}

impl Model for Records {
    ghost use Rattle.std.specs.Prelude.{ℕ, List, map};
    ghost use Rattle.csv.specs.Records.{fields_of};
    ghost use Rattle.csv_records.specs.FileRecords.{trimmed_field};

    ghost Value = { List (List (List ℕ)) };

    ghost view = { λ records. map (λ row. map trimmed_field (fields_of row)) records.rows.items };
}

impl Records {
    /// Reads the records of a file's bytes. The only error is want of memory.
    pub fn read(alloc: Global, bytes: &[u8]) -> Result<Self, AllocError>
        ensures { IfOk result (λ records. records ≡ file_records bytes.now) }
    {
        Ok(Self {
            rows: rows_of(alloc, bytes)?,
        })
    }

    /// How many records there are.
    pub fn len(&self) -> usize
        ensures { result ≡ length self.now }
    {
        self.rows.len()
    }

    /// Whether there is no record.
    pub fn is_empty(&self) -> bool
        ensures { result ≡ (length self.now == 0) }
    {
        self.rows.is_empty()
    }

    /// Whether the first record is exactly these fields; false where there is no record.
    pub fn has_header(&self, names: &[&[u8]]) -> bool
        ensures { result ≡ has_header (map (λ name. name.now) names.now) self.now }
    {
        if self.is_empty() || self.field_count(0) != names.len() {
            return false;
        }
        for (column, name) in names.iter().enumerate() {
            if self.field(0, column) != *name {
                return false;
            }
        }
        true
    }

    /// How many fields a record has. Records are counted from 0.
    pub fn field_count(&self, row: usize) -> usize
        requires { row < length self.now }
        ensures { result ≡ length (slice_index_or self.now row []) }
    {
        self.rows[row].len()
    }

    /// A field of a record, without the blanks at both ends. Records and columns are counted from 0.
    pub fn field(&self, row: usize, column: usize) -> &[u8]
        requires row { row < length self.now }
        requires column { column < length (slice_index_or self.now row []) }
        ensures { result.now ≡ slice_index_or (slice_index_or self.now row []) column [] }
    {
        match self.rows[row].get(column) {
            Some(field) => trimmed_field(field),
            None => unreachable!(),
        }
    }
}

/// A field without the spaces and tabs at both ends.
#[tactic(auto, unfolding(crate::specs::FileRecords::trimmed_field))]
fn trimmed_field(field: &[u8]) -> &[u8]
    ensures value { result.now ≡ trimmed_field field.now }
    ensures meaning { IsTrimmed field.now result.now }
{
    let rest = &field[blanks_in_front(field)..];
    &rest[..rest.len() - blanks_at_end(rest)]
}

/// How many spaces and tabs bytes begin with.
fn blanks_in_front(bytes: &[u8]) -> usize
    ensures count { result ≡ prefix_len is_blank bytes.now }
    ensures within { result ≤ length bytes.now }
{
    bytes.iter().take_while(|byte| is_blank(**byte)).count()
}

/// How many spaces and tabs bytes end with.
fn blanks_at_end(bytes: &[u8]) -> usize
    ensures count { result ≡ suffix_len is_blank bytes.now }
    ensures within { result ≤ length bytes.now }
{
    bytes
        .iter()
        .rev()
        .take_while(|byte| is_blank(**byte))
        .count()
}

/// Whether a byte is a space or a tab.
fn is_blank(byte: u8) -> bool
    ensures { result ≡ is_blank byte }
{
    byte == b' ' || byte == b'\t'
}

/// The records of a file as the crate `csv` reads them, untrimmed, without a byte order mark in front.
fn rows_of(alloc: Global, bytes: &[u8]) -> Result<Vec<ByteRecord>, AllocError>
    ensures { IfOk result (λ rows. map fields_of rows.items ≡ records default_config (strip_bom bytes.now)) }
{
    let reader = ReaderBuilder::new()
        .has_headers(false)
        .flexible(true)
        .from_reader(alloc, bytes);
    let mut rows = Vec::new(alloc);
    for row in reader.into_byte_records() {
        match row {
            Ok(row) => rows.push(row)?,
            Err(fault) => match fault.into_kind() {
                ErrorKind::OutOfMemory | ErrorKind::Io(_) => return Err(AllocError),
                // A record of another length is no fault of a flexible reader, fields of bytes need
                // be no text, and nothing is read into other types.
                _ => unreachable!(),
            },
        }
    }
    Ok(rows)
}
