//! The bytes of a peak file, read as peaks.

ghost use Rattle.std.specs.Prelude.{◌≡◌, ◌≢◌, ◌<◌, ◌∷◌, [], IfOk, MatchOption, length, slice_index_or};
ghost use Rattle.csv_records.specs.FileRecords.{has_header};
ghost use Rattle.reader_answers.specs.Answers.{Gives, GivesAs};
ghost use Rattle.peak_text.specs.PeakFaults.{is_memory};
ghost use Rattle.peak_text.specs.PeakLists.{ArePeaks, IsPeak};
ghost use Rattle.peak_text.specs.PeakText.{peak_header, peak_of, peaks_of, peaks_of_records};

use crate::fault::PeakFault;
use crate::limits::{MAX_INTENSITY, MAX_MZ, MAX_PEAKS};
use crate::peaks::Peaks;
use csv_records::Records;
use fixed_decimal::Fixed;
use std::alloc::Global;

/// Reads the bytes of a peak file: a CSV file whose first record is the header `mz,intensity`, and in which each
/// further record is a peak. Its m/z is a decimal of at most 12 decimals above 0 and at most 20,000 Da, its intensity
/// one of at most 6 decimals and at most 10^12.
///
/// The fault is the first one in the order of the records, and in a record the first in the order of [`PeakFault`].
pub fn read_peaks(alloc: Global, bytes: &[u8]) -> Result<Peaks, PeakFault>
    ensures { Gives is_memory result (peaks_of bytes.now) }
{
    let records = Records::read(alloc, bytes)?;
    let pairs = read_pairs(alloc, &records)?;
    Ok(Peaks::of_pairs(alloc, &pairs)?)
}

/// The m/z and the intensity of each record behind the header, or the first fault.
fn read_pairs(alloc: Global, records: &Records) -> Result<Vec<(u64, u64)>, PeakFault>
    ensures pairs { GivesAs (λ pairs. pairs.items) is_memory result (peaks_of_records records.now) }
    ensures within { IfOk result (λ pairs. ArePeaks pairs.items) }
{
    if !is_header(records) {
        return Err(PeakFault::Header { row: 1 });
    }
    let mut pairs = Vec::new(alloc);
    for index in 1..records.len() {
        let record_number = index as u64 + 1;
        let pair = read_pair(record_number, records, index)?;
        if pairs.len() == MAX_PEAKS {
            return Err(PeakFault::TooMany { row: record_number });
        }
        pairs.push(pair)?;
    }
    Ok(pairs)
}

/// Whether the first record is the header.
fn is_header(records: &Records) -> bool
    ensures { result ≡ has_header peak_header records.now }
{
    records.has_header(&[b"mz".as_slice(), b"intensity".as_slice()])
}

/// The m/z and the intensity of the record at an index, or the first of its own faults.
fn read_pair(record_number: u64, records: &Records, index: usize) -> Result<(u64, u64), PeakFault>
    requires { index < length records.now }
    ensures pair { peak_of record_number (slice_index_or records.now index []) ≡ result }
    ensures within { IfOk result IsPeak }
{
    match pair_fields(records, index) {
        Some((mz, intensity)) => pair_of(record_number, mz, intensity),
        None => Err(PeakFault::FieldCount { row: record_number }),
    }
}

/// The fields of the record at an index, `None` where they aren't two.
fn pair_fields(records: &Records, index: usize) -> Option<(&[u8], &[u8])>
    requires { index < length records.now }
    ensures { MatchOption result (length (slice_index_or records.now index []) ≢ 2)
        (λ fields. slice_index_or records.now index [] ≡ fields.0.now ∷ fields.1.now ∷ []) }
{
    if records.field_count(index) != 2 {
        return None;
    }
    Some((records.field(index, 0), records.field(index, 1)))
}

/// The numbers of the fields of the record of this number, or the first fault among them.
#[tactic(auto, unfolding(crate::specs::PeakText::peak_of))]
fn pair_of(record_number: u64, mz: &[u8], intensity: &[u8]) -> Result<(u64, u64), PeakFault>
    ensures pair { peak_of record_number (mz.now ∷ intensity.now ∷ []) ≡ result }
    ensures within { IfOk result IsPeak }
{
    let mz = Fixed::<12>::read_within(mz, 1, MAX_MZ).ok_or(PeakFault::Mz { row: record_number })?;
    let intensity = Fixed::<6>::read_within(intensity, 0, MAX_INTENSITY).ok_or(
        PeakFault::Intensity { row: record_number },
    )?;
    Ok((mz.units(), intensity.units()))
}
