//! The check of a certificate.

ghost use Rattle.std.specs.Prelude.{◌≡◌, ◌≤◌, IfOk, length};
ghost use Rattle.formula_text.specs.Masses.{HasItems};
ghost use Rattle.cover_claims.specs.FaultNames.{IfNames};
ghost use Rattle.isotopologue_text.specs.Isotopologues.{formula_elements};
ghost use Rattle.certificate_check.specs.declared.judgement.Judgement.TheVariants.{Accepted};
ghost use Rattle.certificate_check.specs.Judgements.{judgement, judgement_of};
ghost use Rattle.certificate_check.specs.CertificateMeaning.{CertificateMeans};

use crate::judgement::{Judgement, Text};
use crate::lines::{first_unnamed, marks_of, rows_of};
use certificate_text::Certificate;
use cover_claims::{ClaimFault, ClaimNumbers, ClaimedMembers, claim_fault};
use element_table::Table;
use isotopologue_text::{elements_of, isotopologue_text};
use std::alloc::{AllocError, Global};

/// The greatest coverage of a certificate: 0.999999, in units of 10^-18.
const MAX_COVERAGE: u64 = 999_999_000_000_000_000;

/// The most isotopologues of a certificate.
const MAX_MEMBERS: u64 = 1_048_576;

/// The line of the first isotopologue.
const FIRST_LINE: u64 = 7;

/// The judgement of a certificate by a table that has each item of its formula. What an accepted certificate claims is
/// true, whoever made it. The only error is want of memory.
pub fn check(
    alloc: Global,
    table: &Table,
    certificate: &Certificate,
) -> Result<Judgement, AllocError>
    requires { HasItems table.now certificate.now.formula }
    ensures judgement { IfOk result (λ j. j ≡ judgement table.now certificate.now) }
    ensures sound { IfOk result (λ j. j ≡ Accepted → CertificateMeans table.now certificate.now) }
{
    let said = certificate.coverage();
    if said == 0 || said > MAX_COVERAGE {
        return Ok(Judgement::CoverageRange { said });
    }
    let found = certificate.lines().len() as u64;
    if found > MAX_MEMBERS {
        return Ok(Judgement::TooManyMembers { found });
    }
    if let Some(place) = first_unnamed(alloc, table, certificate)? {
        let line = place as u64 + FIRST_LINE;
        return Ok(Judgement::NotOfFormula { line });
    }
    let elements = elements_of(alloc, table, certificate.formula())?;
    let rows = rows_of(alloc, table, certificate)?;
    let marks = marks_of(alloc, certificate.lines())?;
    let claimed = ClaimedMembers::of(alloc, elements, rows, marks)?;
    let fault = claim_fault(alloc, &claimed, numbers_of(certificate))?;
    judgement_of(alloc, table, certificate, fault)
}

/// What the certificate claims of its isotopologues.
fn numbers_of(certificate: &Certificate) -> ClaimNumbers
    ensures coverage { result.coverage ≡ certificate.now.coverage }
    ensures size { result.size ≡ certificate.now.size }
    ensures bound { result.bound ≡ certificate.now.bound }
    ensures threshold { result.threshold ≡ certificate.now.threshold }
{
    ClaimNumbers {
        coverage: certificate.coverage(),
        size: certificate.size(),
        bound: certificate.bound(),
        threshold: certificate.threshold(),
    }
}

/// What is judged of a certificate whose claim fails this test, or none.
fn judgement_of(
    alloc: Global,
    table: &Table,
    certificate: &Certificate,
    fault: Option<ClaimFault>,
) -> Result<Judgement, AllocError>
    requires known { HasItems table.now certificate.now.formula }
    requires few { length certificate.now.lines ≤ MAX_MEMBERS }
    requires names { IfNames (formula_elements table.now certificate.now.formula) (length certificate.now.lines) fault }
    ensures { IfOk result (λ j. j ≡ judgement_of table.now certificate.now fault) }
{
    let Some(fault) = fault else {
        return Ok(Judgement::Accepted);
    };
    Ok(match fault {
        ClaimFault::OutOfOrder { place } => Judgement::OutOfOrder {
            line: place as u64 + FIRST_LINE,
        },
        ClaimFault::ModeAbsent => Judgement::ModeAbsent,
        ClaimFault::OpenBoundary {
            place,
            neighbour,
            hi,
        } => {
            let text = isotopologue_text(
                alloc,
                table,
                certificate.formula(),
                neighbour.as_slice(),
            )?;
            Judgement::OpenBoundary {
                line: place as u64 + FIRST_LINE,
                neighbour: Text::of(text),
                hi,
            }
        }
        ClaimFault::SizeDiffers { found } => Judgement::SizeDiffers {
            said: certificate.size(),
            found,
        },
        ClaimFault::CoverShort { total } => Judgement::CoverShort { total },
        ClaimFault::BoundTooHigh { total } => Judgement::BoundTooHigh { total },
    })
}
