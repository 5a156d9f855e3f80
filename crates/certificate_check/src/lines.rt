//! The isotopologues of a certificate's lines.

ghost use Rattle.std.specs.Prelude.{◌≡◌, ◌<◌, None, All, IfOk, IfSome, flat_map, length, map, unwrap_or, []};
ghost use Rattle.formula_text.specs.Masses.{HasItems};
ghost use Rattle.isotopologue_text.specs.Isotopologues.{IsOfText};
ghost use Rattle.isotopologue_text.specs.ReadCounts.{counts_of_text};
ghost use Rattle.certificate_check.specs.Judgements.{first_unnamed};

use certificate_text::{CertLine, Certificate};
use element_table::Table;
use isotopologue_text::isotopologue_into;
use std::alloc::{AllocError, Global};

/// The place of the first line whose text is that of no isotopologue.
pub(crate) fn first_unnamed(
    alloc: Global,
    table: &Table,
    certificate: &Certificate,
) -> Result<Option<usize>, AllocError>
    requires { HasItems table.now certificate.now.formula }
    ensures place { IfOk result (λ place. place ≡ first_unnamed table.now certificate.now) }
    ensures within { IfOk result (λ place. IfSome place (λ k. k < length certificate.now.lines)) }
    ensures meaning { IfOk result (λ place. place ≡ None → All (λ l.
        IsOfText table.now certificate.now.formula l.text (counts_of_text table.now certificate.now.formula l.text))
        certificate.now.lines) }
{
    let mut counts = Vec::new(alloc);
    let lines = certificate.lines();
    for place in 0..lines.len() {
        let text = lines[place].text();
        if !isotopologue_into(table, certificate.formula(), text, &mut counts)? {
            return Ok(Some(place));
        }
    }
    Ok(None)
}

/// The counts of the lines' isotopologues end to end, without the lines whose text is that of none.
pub(crate) fn rows_of(
    alloc: Global,
    table: &Table,
    certificate: &Certificate,
) -> Result<Vec<u32>, AllocError>
    requires { HasItems table.now certificate.now.formula }
    ensures { IfOk result (λ rows. rows.items ≡
        flat_map (λ l. unwrap_or (counts_of_text table.now certificate.now.formula l.text) []) certificate.now.lines) }
{
    let mut rows = Vec::new(alloc);
    let mut counts = Vec::new(alloc);
    for line in certificate.lines() {
        if isotopologue_into(table, certificate.formula(), line.text(), &mut counts)? {
            rows.extend_from_slice(&counts)?;
        }
    }
    Ok(rows)
}

/// Which lines are marked.
pub(crate) fn marks_of(alloc: Global, lines: &[CertLine]) -> Result<Vec<bool>, AllocError>
    ensures { IfOk result (λ marks. marks.items ≡ map (λ l. l.marked) lines.now) }
{
    let mut marks = Vec::new(alloc);
    for line in lines {
        marks.push(line.marked())?;
    }
    Ok(marks)
}
