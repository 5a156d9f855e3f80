//! The bytes of a certificate, read.

ghost use Rattle.std.specs.Prelude.{◌≡◌, ◌∷◌, ◌+◌, ◌^◌, ◌<◌, [], length, IfOk, IfErr, MatchResult, None, Some};
ghost use Rattle.std.specs.Str.Lines.{lines};
ghost use Rattle.reader_answers.specs.Answers.{Gives, GivesAs, unless_fault};
ghost use Rattle.formula_text.specs.Masses.{HasItems};
ghost use Rattle.certificate_text.specs.CertificateFaults.{is_memory};
ghost use Rattle.certificate_text.specs.CertificateReader.{certificate_of, fault_behind_end, listed_after, next_line};
ghost use Rattle.certificate_text.specs.CertificateReader.{behind_title};
ghost use Rattle.certificate_text.specs.CertificateReadings.{Answer, CertificateReading, formula_line, number_line};

use crate::certificate::{CertLine, Certificate};
use crate::fault::CertificateFault;
use crate::line::{entry_line, formula_line, number_line};
use element_table::Table;
use file_lines::cut_line;
use formula_text::Formula;
use std::alloc::Global;

/// Reads the bytes of a certificate. LF or CR LF ends a line, and the last line may lack its end. The lines are:
///
/// 1. `isoform certificate 1`;
/// 2. `formula ` and a text that `read_formula` accepts;
/// 3. `coverage `, 4. `size `, 5. `bound `, 6. `threshold `, each with a whole number of at most 10^18;
/// 7. and on: `cover ` or `layer ` and any text, and then `end`, behind which only empty lines stand.
///
/// The fault is the first one in the order of the lines. `EndMissing` comes where they run out before `end`, also among
/// the first six.
pub fn read_certificate(
    alloc: Global,
    table: &Table,
    bytes: &[u8],
) -> Result<Certificate, CertificateFault>
    ensures certificate { Gives is_memory result (certificate_of table.now bytes.now) }
    ensures meaning { CertificateReading table.now (lines bytes.now) (certificate_of table.now bytes.now) }
    ensures only { (answer : Answer) → CertificateReading table.now (lines bytes.now) answer
        → answer ≡ certificate_of table.now bytes.now }

    // The table has each item of the formula.
    ensures known { IfOk result (λ c. HasItems table.now c.formula) }
{
    certificate_of(alloc, table, bytes)
}

/// The certificate as it is computed.
#[tactic(auto, unfolding(crate::specs::CertificateReader::certificate_in))]
fn certificate_of(
    alloc: Global,
    table: &Table,
    bytes: &[u8],
) -> Result<Certificate, CertificateFault>
    ensures certificate { Gives is_memory result (certificate_of table.now bytes.now) }
    ensures known { IfOk result (λ c. HasItems table.now c.formula) }
{
    let left = behind_title(bytes)?;
    let (formula, left) = formula_of(alloc, table, left)?;
    let (coverage, left) = number_of(3, b"coverage ", left)?;
    let (size, left) = number_of(4, b"size ", left)?;
    let (bound, left) = number_of(5, b"bound ", left)?;
    let (threshold, left) = number_of(6, b"threshold ", left)?;
    let listed = listed_of(alloc, left)?;
    Ok(Certificate::of(formula, coverage, size, bound, threshold, listed))
}

/// The next line, and what stands behind it.
fn next_line(bytes: &[u8]) -> Result<(&[u8], &[u8]), CertificateFault>
    ensures lines { IfOk result (λ next. lines bytes.now ≡ next.0.now ∷ lines next.1.now) }
    ensures none { IfErr result (λ told. (lines bytes.now ≡ []) × (told ≡ CertificateFault.EndMissing)) }
{
    if bytes.is_empty() {
        Err(CertificateFault::EndMissing)
    } else {
        Ok(cut_line(bytes))
    }
}

/// What stands behind the first line.
fn behind_title(bytes: &[u8]) -> Result<&[u8], CertificateFault>
    ensures { GivesAs (λ rest. lines rest.now) is_memory result (behind_title (lines bytes.now)) }
{
    let (line, rest) = next_line(bytes)?;
    if line == b"isoform certificate 1".as_slice() {
        Ok(rest)
    } else {
        Err(CertificateFault::BadLine { line: 1 })
    }
}

/// The formula of the next line, the second, and what stands behind it.
fn formula_of<'a>(
    alloc: Global,
    table: &Table,
    bytes: &'a [u8],
) -> Result<(Formula, &'a [u8]), CertificateFault>
    ensures formula { GivesAs (λ next. (next.0, lines next.1.now)) is_memory result
        (next_line (formula_line table.now) (lines bytes.now)) }
    ensures known { IfOk result (λ next. HasItems table.now next.0) }
{
    let (line, rest) = next_line(bytes)?;
    Ok((formula_line(alloc, table, line)?, rest))
}

/// The number of the next line, which has this number and begins with a word, and what stands behind it.
fn number_of<'a>(
    number: u64,
    word: &[u8],
    bytes: &'a [u8],
) -> Result<(u64, &'a [u8]), CertificateFault>
    ensures { GivesAs (λ next. (next.0, lines next.1.now)) is_memory result
        (next_line (number_line number word.now) (lines bytes.now)) }
{
    let (line, rest) = next_line(bytes)?;
    Ok((number_line(number, word, line)?, rest))
}

/// The isotopologues that are listed from the seventh line on.
fn listed_of(alloc: Global, bytes: &[u8]) -> Result<Vec<CertLine>, CertificateFault>
    ensures { GivesAs (λ listed. listed.items) is_memory result (listed_after 7 [] (lines bytes.now)) }
{
    let mut listed = Vec::new(alloc);
    let mut left = bytes;
    let mut number = 6;
    while !left.is_empty() {
        let (line, rest) = cut_line(left);
        number += 1;
        if line == b"end".as_slice() {
            check_behind_end(number, rest)?;
            return Ok(listed);
        }
        listed.push(entry_line(alloc, number, line)?)?;
        left = rest;
    }
    Err(CertificateFault::EndMissing)
}

/// Refuses the first line that isn't empty behind the line `end` of this number.
fn check_behind_end(number: u64, bytes: &[u8]) -> Result<(), CertificateFault>
    requires { number + length bytes.now < 2 ^ 64 }
    ensures none { IfOk result (λ _. fault_behind_end (number + 1) (lines bytes.now) ≡ None) }
    ensures some { IfErr result (λ told. fault_behind_end (number + 1) (lines bytes.now) ≡ Some told) }
{
    let mut left = bytes;
    let mut last = number;
    while !left.is_empty() {
        let (line, rest) = cut_line(left);
        last += 1;
        if !line.is_empty() {
            return Err(CertificateFault::BadLine { line: last });
        }
        left = rest;
    }
    Ok(())
}
