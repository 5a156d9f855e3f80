//! The words of a line.
ghost use Rattle.std.specs.Prelude.{◌≡◌, ℕ, List, ◌++◌, length, take, OnOk, OnErr};
ghost use Rattle.std.specs.Fmt.{decimal, signed_decimal};
ghost use Rattle.formula_text.specs.PrintedText.{printed_text};
ghost use Rattle.report_lines.specs.ReportLines.{IsPrintedMass, ion_mass_text, mass_text};
ghost use Rattle.report_lines.specs.Words.{word_text};

use crate::formula::push_formula;
use crate::written::write_mass;
use itoa::{Buffer, write_digits};
use std::alloc::AllocError;
use written_items::Item;

/// A word of a line.
#[derive(Clone, Copy)]
pub enum Word<'a> {
    /// A text as it is.
    Text(&'a [u8]),
    /// The printed text of a formula, of which these are the items with their counts.
    Formula(&'a [(Item, u32)]),
    /// A whole number.
    Number(u64),
    /// A mass in 10^-12 Da, printed with 12 decimals.
    Mass(u64),
    /// The same of a mass below 0, by how much it is below.
    NegativeMass(u64),
    /// A difference of two masses, printed as a whole number of 10^-12 Da.
    Difference(i128),
}

/// The length of the text of the greatest mass: 8 digits, a point and 12 decimals.
const MAX_MASS_LENGTH: usize = 21;

/// The length of the text of the greatest whole number.
const MAX_NUMBER_LENGTH: usize = 20;

/// The word of a mass from which that of electrons was taken off.
pub fn ion_mass_word<'a>(mass: i128) -> Word<'a>
    requires { IsPrintedMass mass }
    ensures { word_text result ≡ ion_mass_text mass }
{
    let units = mass.unsigned_abs() as u64;
    if mass < 0 {
        Word::NegativeMass(units)
    } else {
        Word::Mass(units)
    }
}

/// Appends a word. Without room for all of it a part may be appended.
pub fn push_word(text: &mut Vec<u8>, word: &Word<'_>) -> Result<(), AllocError>
    ensures text { OnOk result (text.new.items ≡ text.old.items ++ word_text word.now) }
    ensures kept { OnErr result (take (length text.old.items) text.new.items ≡ text.old.items) }
{
    match *word {
        Word::Text(bytes) => text.extend_from_slice(bytes),
        Word::Formula(items) => push_formula(text, items),
        Word::Number(number) => {
            let mut digits = [0; MAX_NUMBER_LENGTH];
            let start = write_digits(number, &mut digits, MAX_NUMBER_LENGTH);
            text.extend_from_slice(&digits[start..])
        }
        Word::Mass(mass) => push_mass(text, mass),
        Word::NegativeMass(mass) => {
            text.push(b'-')?;
            push_mass(text, mass)
        }
        Word::Difference(difference) => {
            let mut digits = Buffer::new();
            text.extend_from_slice(digits.format(difference).as_bytes())
        }
    }
}

/// Appends a mass with 12 decimals. Without room for it the text stays as it was.
fn push_mass(text: &mut Vec<u8>, mass: u64) -> Result<(), AllocError>
    ensures text { OnOk result (text.new.items ≡ text.old.items ++ mass_text mass) }
    ensures refused { OnErr result (text.new.items ≡ text.old.items) }
{
    let mut bytes = [0; MAX_MASS_LENGTH];
    let start = write_mass(mass, &mut bytes, MAX_MASS_LENGTH);
    text.extend_from_slice(&bytes[start..])
}
