//! The lines of the report of a cover.
ghost use Rattle.std.specs.Prelude.{◌≡◌, ◌++◌, length, take, All, IfOk, OnOk, OnErr, codes};
ghost use Rattle.std.specs.List.{flat_map};
ghost use Rattle.report_lines.specs.ReportLines.{IsPrintedWith, cover_members, member_of_words};
ghost use Rattle.report_lines.specs.ReportLines.{envelope_head, head_lines, isotopologue_line, envelope_text};

use crate::line::{cut_unless_pushed, push_line};
use crate::word::Word;
use crate::written::{NUMBERS_ROOM, write_enclosed};
use cover_certificate::{Cover, CoverMember, NumberedCover};
use formula_text::Formula;
use std::alloc::{AllocError, Global};

/// The five lines above the isotopologues of a cover: its formula, coverage, size, bound and threshold.
pub fn envelope_head(alloc: Global, cover: &Cover) -> Result<Vec<u8>, AllocError>
    ensures { IfOk result (λ text. text.items ≡ envelope_head cover.now) }
{
    let mut text = Vec::new(alloc);
    push_envelope_head(&mut text, cover)?;
    Ok(text)
}

/// The same lines of a cover whose members get their texts one at a time.
pub fn numbered_head(alloc: Global, cover: &NumberedCover) -> Result<Vec<u8>, AllocError>
    ensures { IfOk result (λ text. text.items ≡ envelope_head cover.now) }
{
    let mut text = Vec::new(alloc);
    push_head_lines(
        &mut text,
        cover.formula(),
        cover.coverage(),
        cover.size(),
        cover.bound(),
        cover.threshold(),
    )?;
    Ok(text)
}

/// Appends the five lines above the isotopologues of a cover. Without room for them the report stays as it was.
pub fn push_envelope_head(report: &mut Vec<u8>, cover: &Cover) -> Result<(), AllocError>
    ensures lines { OnOk result (report.new.items ≡ report.old.items ++ envelope_head cover.now) }
    ensures refused { OnErr result (report.new.items ≡ report.old.items) }
{
    let start = report.len();
    let pushed = push_head_lines(
        report,
        cover.formula(),
        cover.coverage(),
        cover.size(),
        cover.bound(),
        cover.threshold(),
    );
    cut_unless_pushed(report, start, pushed)
}

/// Appends the five lines above the isotopologues of a cover, or as many as there is room for.
fn push_head_lines(
    report: &mut Vec<u8>,
    formula: &Formula,
    coverage: u64,
    size: u64,
    bound: u64,
    threshold: u64,
) -> Result<(), AllocError>
    ensures lines { OnOk result (
        report.new.items ≡ report.old.items ++ head_lines formula.now coverage size bound threshold) }
    ensures kept { OnErr result (take (length report.old.items) report.new.items ≡ report.old.items) }
{
    push_line(
        report,
        &[Word::Text(b"envelope"), Word::Formula(formula.items())],
    )?;
    push_line(report, &[Word::Text(b"coverage"), Word::Number(coverage)])?;
    push_line(report, &[Word::Text(b"size"), Word::Number(size)])?;
    push_line(report, &[Word::Text(b"bound"), Word::Number(bound)])?;
    push_line(report, &[Word::Text(b"threshold"), Word::Number(threshold)])
}

/// The line of an isotopologue: its text, its mass with the shift added, in 10^-12 Da, and the bounds of its
/// probability in 10^-18.
pub fn isotopologue_line(
    alloc: Global,
    member: &CoverMember,
    shift: i128,
) -> Result<Vec<u8>, AllocError>
    requires { IsPrintedWith shift member.now }
    ensures { IfOk result (λ text. text.items ≡ isotopologue_line shift member.now) }
{
    let mut text = Vec::new(alloc);
    push_isotopologue_line(&mut text, member, shift)?;
    Ok(text)
}

/// Appends the line of an isotopologue, as [`isotopologue_line`] gives it. Without room for it the report stays as it
/// was.
pub fn push_isotopologue_line(
    report: &mut Vec<u8>,
    member: &CoverMember,
    shift: i128,
) -> Result<(), AllocError>
    requires { IsPrintedWith shift member.now }
    ensures line { OnOk result (report.new.items ≡ report.old.items ++ isotopologue_line shift member.now) }
    ensures refused { OnErr result (report.new.items ≡ report.old.items) }
{
    let enclosure = member.enclosure();
    push_isotopologue_words(
        report,
        member.text(),
        member.mass(),
        enclosure.lo,
        enclosure.hi,
        shift,
    )
}

/// Appends the line of an isotopologue of this text and mass, and with these bounds of its probability, as
/// [`isotopologue_line`] gives it. Without room for it the report stays as it was.
pub fn push_isotopologue_words(
    report: &mut Vec<u8>,
    text: &[u8],
    mass: u64,
    lo: u64,
    hi: u64,
    shift: i128,
) -> Result<(), AllocError>
    requires { IsPrintedWith shift (member_of_words text.now mass lo hi) }
    ensures line { OnOk result (
        report.new.items ≡ report.old.items ++ isotopologue_line shift (member_of_words text.now mass lo hi)) }
    ensures refused { OnErr result (report.new.items ≡ report.old.items) }
{
    let mut numbers = [0; NUMBERS_ROOM];
    let place = write_enclosed(i128::from(mass) + shift, lo, hi, &mut numbers);
    let start = report.len();
    let pushed = push_text_with(report, text, &numbers[place..]);
    cut_unless_pushed(report, start, pushed)
}

/// Appends the line of an isotopologue of this text with what stands behind it, or as much as there is room for.
fn push_text_with(report: &mut Vec<u8>, text: &[u8], numbers: &[u8]) -> Result<(), AllocError>
    ensures line { OnOk result (
        report.new.items ≡ report.old.items ++ codes "isotopologue " ++ text.now ++ numbers.now) }
    ensures kept { OnErr result (take (length report.old.items) report.new.items ≡ report.old.items) }
{
    report.extend_from_slice(b"isotopologue ")?;
    report.extend_from_slice(text)?;
    report.extend_from_slice(numbers)
}

/// The report of a cover, with the shift added to each mass: its five lines and a line for each member of the cover.
pub fn envelope_text(alloc: Global, cover: &Cover, shift: i128) -> Result<Vec<u8>, AllocError>
    requires { All (IsPrintedWith shift) (cover_members cover.now) }
    ensures { IfOk result (λ text. text.items ≡ envelope_text shift cover.now) }
{
    let mut text = Vec::new(alloc);
    push_envelope_text(&mut text, cover, shift)?;
    Ok(text)
}

/// Appends the report of a cover, as [`envelope_text`] gives it. Without room for it the report stays as it was.
pub fn push_envelope_text(
    report: &mut Vec<u8>,
    cover: &Cover,
    shift: i128,
) -> Result<(), AllocError>
    requires { All (IsPrintedWith shift) (cover_members cover.now) }
    ensures lines { OnOk result (report.new.items ≡ report.old.items ++ envelope_text shift cover.now) }
    ensures refused { OnErr result (report.new.items ≡ report.old.items) }
{
    let start = report.len();
    let pushed = push_report_lines(report, cover, shift);
    cut_unless_pushed(report, start, pushed)
}

/// Appends the lines of the report of a cover, or as many as there is room for.
fn push_report_lines(report: &mut Vec<u8>, cover: &Cover, shift: i128) -> Result<(), AllocError>
    requires { All (IsPrintedWith shift) (cover_members cover.now) }
    ensures lines { OnOk result (report.new.items ≡ report.old.items ++ envelope_text shift cover.now) }
    ensures kept { OnErr result (take (length report.old.items) report.new.items ≡ report.old.items) }
{
    push_envelope_head(report, cover)?;
    let (members, _) = cover.layer().split_at(cover.size() as usize);
    push_member_lines(report, members, shift)
}

/// Appends the lines of isotopologues, or as many as there is room for.
fn push_member_lines(
    report: &mut Vec<u8>,
    members: &[CoverMember],
    shift: i128,
) -> Result<(), AllocError>
    requires { All (IsPrintedWith shift) members.now }
    ensures lines { OnOk result (
        report.new.items ≡ report.old.items ++ flat_map (isotopologue_line shift) members.now) }
    ensures kept { OnErr result (take (length report.old.items) report.new.items ≡ report.old.items) }
{
    for member in members {
        push_isotopologue_line(report, member, shift)?;
    }
    Ok(())
}
