//! The text of the certificate of a cover.

ghost use Rattle.std.specs.Prelude.{◌≡◌, ◌+◌, ◌++◌, ◌<◌, ◌≤◌, [], Ok, nat_lt, length, sum_by, IfOk, OnOk};
ghost use Rattle.std.specs.List.{flat_map};
ghost use Rattle.std.specs.Fmt.{decimal};
ghost use Rattle.reader_answers.specs.Answers.{GivesAs};
ghost use Rattle.element_table.specs.Elements.{TableEntries};
ghost use Rattle.formula_text.specs.Formulas.{IsFormula};
ghost use Rattle.formula_text.specs.Masses.{HasItems};
ghost use Rattle.certificate_text.specs.CertificateReader.{certificate_of};
ghost use Rattle.certificate_text.specs.WrittenCertificates.{ended, head_lines};
ghost use Rattle.cover_certificate.specs.CoverCertificates.{IsReadable, certificate_of_cover, cover_certificate};
ghost use Rattle.cover_certificate.specs.CoverCertificates.{is_memory, max_length};

use crate::cover::Cover;
use crate::member::CoverMember;
use itoa::Buffer;
use std::alloc::{AllocError, AllocFailed, Global};
use thiserror::Error;

/// The greatest length of a certificate's text, in bytes.
pub const MAX_LENGTH: u64 = 268_435_456;

/// Why the text of a cover's certificate isn't given.
#[derive(Debug, Drop, Error)]
pub enum CertificateWrite {
    /// It has more than 268,435,456 bytes.
    #[error("a certificate of more than 268,435,456 bytes")]
    TooLong,
    /// Want of memory.
    #[error("out of memory")]
    Memory,
}

impl From<AllocError> for CertificateWrite {
    ghost use Rattle.cover_certificate.specs.declared.certificate.CertificateWrite.TheVariants.{Memory};

    ghost from_gives = { λ _ fault. fault ≡ Memory };

    fn from(_error: AllocError) -> CertificateWrite {
        CertificateWrite::Memory
    }
}

/// The text of the certificate of a cover: a line with the formula and each of the numbers, one for each member of the
/// layer, which begins with `cover` for those of the cover and with `layer` for the others, and the line `end`.
/// `TooLong` exactly where the text has more than 268,435,456 bytes.
pub fn write_certificate(alloc: Global, cover: &Cover) -> Result<Vec<u8>, CertificateWrite>
    ensures text { GivesAs (λ text. text.items) is_memory result (cover_certificate cover.now) }

    // It is read as the certificate of the cover with each table that has the formula's items.
    ensures read_back { IfOk result (λ text. (table : TableEntries) → HasItems table cover.now.formula
        → IsReadable cover.now → certificate_of table text.items ≡ Ok (certificate_of_cover cover.now)) }
{
    let mut text = head_of(alloc, cover)?;
    if is_too_long(text.len() as u64, cover.layer()) {
        return Err(CertificateWrite::TooLong);
    }
    let (members, others) = cover.layer().split_at(cover.size() as usize);
    push_members(&mut text, b"cover ", members)?;
    push_members(&mut text, b"layer ", others)?;
    push_line(&mut text, b"end", b"")?;
    Ok(text)
}

/// The six lines above the members.
fn head_of(alloc: Global, cover: &Cover) -> Result<Vec<u8>, AllocError>
    ensures text { IfOk result (λ text. text.items ≡ flat_map ended (head_lines (certificate_of_cover cover.now))) }
    ensures formula { IfOk result (λ _. IsFormula cover.now.formula) }
{
    let mut text = Vec::new(alloc);
    push_line(&mut text, b"isoform certificate 1", b"")?;
    push_line(&mut text, b"formula ", &cover.formula().print()?)?;
    push_number(&mut text, b"coverage ", cover.coverage())?;
    push_number(&mut text, b"size ", cover.size())?;
    push_number(&mut text, b"bound ", cover.bound())?;
    push_number(&mut text, b"threshold ", cover.threshold())?;
    Ok(text)
}

/// Whether a text that begins with so many bytes is too long with the lines of these members and the line `end`.
fn is_too_long(head: u64, members: &[CoverMember]) -> bool
    ensures { result ≡ nat_lt max_length (head + sum_by (λ m. length m.text + 7) members.now + 4) }
{
    if head > MAX_LENGTH {
        return true;
    }
    let mut length = head;
    for member in members {
        length += member.text().len() as u64 + 7;
        if length > MAX_LENGTH {
            return true;
        }
    }
    length + 4 > MAX_LENGTH
}

/// Appends the lines of members, which begin with a word.
fn push_members(text: &mut Vec<u8>, word: &[u8], members: &[CoverMember]) -> Result<(), AllocError>
    ensures { OnOk result (text.new.items ≡ text.old.items ++ flat_map (λ m. ended (word.now ++ m.text)) members.now) }
{
    for member in members {
        push_line(text, word, member.text())?;
    }
    Ok(())
}

/// Appends a line of a word and a number.
fn push_number(text: &mut Vec<u8>, word: &[u8], number: u64) -> Result<(), AllocError>
    ensures { OnOk result (text.new.items ≡ text.old.items ++ ended (word.now ++ decimal number)) }
{
    let mut digits = Buffer::new();
    push_line(text, word, digits.format(number).as_bytes())
}

/// Appends a line of a word and what stands behind it.
fn push_line(text: &mut Vec<u8>, word: &[u8], rest: &[u8]) -> Result<(), AllocError>
    ensures { OnOk result (text.new.items ≡ text.old.items ++ ended (word.now ++ rest.now)) }
{
    text.extend_from_slice(word)?;
    text.extend_from_slice(rest)?;
    text.push(b'\n')?;
    Ok(())
}
