//! The words of a line, written on the stack from the line's end to its front.
//!
//! Each call writes a word so that it ends at `end`, and gives where it starts.
ghost use Rattle.std.specs.Prelude.{◌≡◌, ◌+◌, ◌≤◌, [], ◌∷◌, ◌++◌, length, drop};
ghost use Rattle.std.specs.Fmt.{decimal, signed_decimal};
ghost use Rattle.report_lines.specs.ReportLines.{IsPrintedMass, ion_mass_text, line_feed, mass_text, space};

use backward_text::write_byte;
use itoa::write_digits;

/// The units of 10^-12 Da in 1 Da.
const DALTON: u64 = 1_000_000_000_000;

/// Room for the numbers of a line: each is at most 22 bytes, and has a space before it.
pub const NUMBERS_ROOM: usize = 96;

/// Writes the numbers behind a formula, with a space before each, and a line feed: its mass, the mass of its ion, and a
/// difference of less than 2^64 units.
pub fn write_masses(
    mass: u64,
    ion_mass: i128,
    difference: i128,
    bytes: &mut [u8],
    end: usize,
) -> usize
    requires ion { IsPrintedMass ion_mass }
    requires difference { IsPrintedMass difference }
    requires room { 96 ≤ end }
    requires within { end ≤ length bytes.old }
    ensures start { end ≤ result + 96 }
    ensures end { result ≤ end }
    ensures written { drop result bytes.new ≡ space ∷ mass_text mass ++ space ∷ ion_mass_text ion_mass
        ++ space ∷ signed_decimal difference ++ line_feed ∷ drop end bytes.old }
{
    let start = write_byte(bytes, end, b'\n');
    let start = write_difference(difference, bytes, start);
    let start = write_byte(bytes, start, b' ');
    let start = write_ion_mass(ion_mass, bytes, start);
    let start = write_byte(bytes, start, b' ');
    let start = write_mass(mass, bytes, start);
    write_byte(bytes, start, b' ')
}

/// Writes the numbers behind the text of an isotopologue, with a space before each, and a line feed: its mass with the
/// shift added, and the bounds of its probability.
pub fn write_enclosed(mass: i128, lo: u64, hi: u64, bytes: &mut [u8; NUMBERS_ROOM]) -> usize
    requires printed { IsPrintedMass mass }
    ensures within { result ≤ 96 }
    ensures written { drop result bytes.new ≡ space ∷ ion_mass_text mass
        ++ space ∷ decimal lo ++ space ∷ decimal hi ++ line_feed ∷ [] }
{
    let start = write_byte(bytes, NUMBERS_ROOM, b'\n');
    let start = write_number(hi, bytes, start);
    let start = write_number(lo, bytes, start);
    let start = write_ion_mass(mass, bytes, start);
    write_byte(bytes, start, b' ')
}

/// Writes a text as it is.
#[inline(always)]
pub fn write_text(text: &[u8], bytes: &mut [u8], end: usize) -> usize
    requires room { length text.now ≤ end }
    requires within { end ≤ length bytes.old }
    ensures start { result + length text.now ≡ end }
    ensures written { drop result bytes.new ≡ text.now ++ drop end bytes.old }
{
    let start = end - text.len();
    bytes[start..end].copy_from_slice(text);
    start
}

/// Writes a number with a space before it.
pub fn write_number(number: u64, bytes: &mut [u8], end: usize) -> usize
    requires room { 21 ≤ end }
    requires within { end ≤ length bytes.old }
    ensures start { end ≤ result + 21 }
    ensures end { result ≤ end }
    ensures written { drop result bytes.new ≡ space ∷ decimal number ++ drop end bytes.old }
{
    let start = write_digits(number, bytes, end);
    write_byte(bytes, start, b' ')
}

/// Writes a mass in 10^-12 Da with 12 decimals.
pub fn write_mass(mass: u64, bytes: &mut [u8], end: usize) -> usize
    requires room { 21 ≤ end }
    requires within { end ≤ length bytes.old }
    ensures start { end ≤ result + 21 }
    ensures end { result ≤ end }
    ensures written { drop result bytes.new ≡ mass_text mass ++ drop end bytes.old }
{
    // The decimals with their leading zeros stand behind a 1, which gives its place to the point.
    let point = write_digits(DALTON + mass % DALTON, bytes, end);
    bytes[point] = b'.';
    write_digits(mass / DALTON, bytes, point)
}

/// Writes a mass from which that of electrons was taken off.
pub fn write_ion_mass(mass: i128, bytes: &mut [u8], end: usize) -> usize
    requires printed { IsPrintedMass mass }
    requires room { 22 ≤ end }
    requires within { end ≤ length bytes.old }
    ensures start { end ≤ result + 22 }
    ensures end { result ≤ end }
    ensures written { drop result bytes.new ≡ ion_mass_text mass ++ drop end bytes.old }
{
    let start = write_mass(mass.unsigned_abs() as u64, bytes, end);
    if mass < 0 {
        return write_byte(bytes, start, b'-');
    }
    start
}

/// Writes a difference of masses of less than 2^64 units.
pub fn write_difference(difference: i128, bytes: &mut [u8], end: usize) -> usize
    requires printed { IsPrintedMass difference }
    requires room { 21 ≤ end }
    requires within { end ≤ length bytes.old }
    ensures start { end ≤ result + 21 }
    ensures end { result ≤ end }
    ensures written { drop result bytes.new ≡ signed_decimal difference ++ drop end bytes.old }
{
    let start = write_digits(difference.unsigned_abs() as u64, bytes, end);
    if difference < 0 {
        return write_byte(bytes, start, b'-');
    }
    start
}
