//! What the lines of a certificate say, each by itself.

ghost use Rattle.std.specs.Prelude.{◌≡◌, IfOk};
ghost use Rattle.std.specs.Option.{option_copied};
ghost use Rattle.reader_answers.specs.Answers.{Gives, GivesAs};
ghost use Rattle.formula_text.specs.Masses.{HasItems};
ghost use Rattle.certificate_text.specs.CertificateFaults.{is_memory};
ghost use Rattle.certificate_text.specs.CertificateLines.{behind};
ghost use Rattle.certificate_text.specs.CertificateReadings.{entry_line, formula_line, number_line, worded};

use crate::certificate::CertLine;
use crate::fault::CertificateFault;
use element_table::Table;
use fixed_decimal::whole;
use formula_text::{Formula, FormulaFault, read_formula};
use std::alloc::Global;

/// The greatest number of a line.
const MOST_NUMBER: u64 = 1_000_000_000_000_000_000;

/// What stands behind a word at the beginning of a line, if the line begins with it.
fn behind<'a>(word: &[u8], line: &'a [u8]) -> Option<&'a [u8]>
    ensures { option_copied result ≡ behind word.now line.now }
{
    line.strip_prefix(word)
}

/// The text behind the word with which the line of this number begins.
fn worded<'a>(number: u64, word: &[u8], line: &'a [u8]) -> Result<&'a [u8], CertificateFault>
    ensures { GivesAs (λ text. text.now) is_memory result (worded number word.now line.now) }
{
    behind(word, line).ok_or(CertificateFault::BadLine { line: number })
}

/// The formula of the second line.
pub(crate) fn formula_line(
    alloc: Global,
    table: &Table,
    line: &[u8],
) -> Result<Formula, CertificateFault>
    ensures formula { Gives is_memory result (formula_line table.now line.now) }
    ensures known { IfOk result (HasItems table.now) }
{
    let text = worded(2, b"formula ", line)?;
    match read_formula(alloc, table, text) {
        Ok(formula) => Ok(formula),
        Err(FormulaFault::Memory(error)) => Err(CertificateFault::Memory(error)),
        Err(_) => Err(CertificateFault::FormulaLine),
    }
}

/// The number of the line of this number that begins with a word.
pub(crate) fn number_line(number: u64, word: &[u8], line: &[u8]) -> Result<u64, CertificateFault>
    ensures { Gives is_memory result (number_line number word.now line.now) }
{
    let text = worded(number, word, line)?;
    whole(text, MOST_NUMBER).ok_or(CertificateFault::NumberLine { line: number })
}

/// The isotopologue that the line of this number lists.
pub(crate) fn entry_line(
    alloc: Global,
    number: u64,
    line: &[u8],
) -> Result<CertLine, CertificateFault>
    ensures { Gives is_memory result (entry_line number line.now) }
{
    let (marked, text) = match behind(b"cover ", line) {
        Some(text) => (true, text),
        None => (false, worded(number, b"layer ", line)?),
    };
    Ok(CertLine::of(marked, Vec::from_slice(alloc, text)?))
}
