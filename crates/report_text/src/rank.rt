//! The lines of the report of ranked peaks.
ghost use Rattle.std.specs.Prelude.{◌≡◌, ◌<◌, ◌++◌, IfOk, OnErr, OnOk, length, map, slice_index_or, take};
ghost use Rattle.std.specs.List.{flat_map, enumerate_from};
ghost use Rattle.ranking.specs.Places.{by_score};
ghost use Rattle.report_lines.specs.Words.{word_text};
ghost use Rattle.report_text.specs.RankLines.{done_text, job_line, place_line, place_lines, rank_head, rank_text};

use ranking::{Ranked, in_places};
use report_lines::{Word, cut_unless_pushed, push_line};
use std::alloc::{AllocError, Global};

/// The line above the jobs of a report on so many.
pub fn rank_head(alloc: Global, jobs: u64) -> Result<Vec<u8>, AllocError>
    ensures { IfOk result (λ text. text.items ≡ rank_head jobs) }
{
    let mut text = Vec::new(alloc);
    push_rank_head(&mut text, jobs)?;
    Ok(text)
}

/// Appends the line above the jobs of a report on so many. Without room for it the report stays as it was.
pub fn push_rank_head(report: &mut Vec<u8>, jobs: u64) -> Result<(), AllocError>
    ensures line { OnOk result (report.new.items ≡ report.old.items ++ rank_head jobs) }
    ensures refused { OnErr result (report.new.items ≡ report.old.items) }
{
    push_line(report, &[Word::Text(b"rank"), Word::Number(jobs)])
}

/// The line of a job above its places: the number of its peak, the m/z of that in 10^-12 Da, whether it is done, and
/// how many formulas it found.
pub fn job_line(
    alloc: Global,
    peak: u64,
    mz: u64,
    done: bool,
    found: u64,
) -> Result<Vec<u8>, AllocError>
    ensures { IfOk result (λ text. text.items ≡ job_line peak mz done found) }
{
    let mut text = Vec::new(alloc);
    push_job_line(&mut text, peak, mz, done, found)?;
    Ok(text)
}

/// Appends the line of a job, as [`job_line`] gives it. Without room for it the report stays as it was.
pub fn push_job_line(
    report: &mut Vec<u8>,
    peak: u64,
    mz: u64,
    done: bool,
    found: u64,
) -> Result<(), AllocError>
    ensures line { OnOk result (report.new.items ≡ report.old.items ++ job_line peak mz done found) }
    ensures refused { OnErr result (report.new.items ≡ report.old.items) }
{
    push_line(
        report,
        &[
            Word::Text(b"job"),
            Word::Number(peak),
            Word::Mass(mz),
            done_word(done),
            Word::Number(found),
        ],
    )
}

/// The word of a job that is done or open.
fn done_word<'a>(done: bool) -> Word<'a>
    ensures { word_text result ≡ done_text done }
{
    if done {
        Word::Text(b"done")
    } else {
        Word::Text(b"open")
    }
}

/// The line of a formula at a place: its text, its score in 10^-18, and the size and the bound of its ion's cover.
pub fn place_line(alloc: Global, place: u64, ranked: &Ranked) -> Result<Vec<u8>, AllocError>
    ensures { IfOk result (λ text. text.items ≡ place_line (place, ranked.now)) }
{
    let mut text = Vec::new(alloc);
    push_place_line(&mut text, place, ranked)?;
    Ok(text)
}

/// Appends the line of a formula at a place, as [`place_line`] gives it. Without room for it the report stays as it
/// was.
pub fn push_place_line(report: &mut Vec<u8>, place: u64, ranked: &Ranked) -> Result<(), AllocError>
    ensures line { OnOk result (report.new.items ≡ report.old.items ++ place_line (place, ranked.now)) }
    ensures refused { OnErr result (report.new.items ≡ report.old.items) }
{
    push_line(
        report,
        &[
            Word::Text(b"place"),
            Word::Number(place),
            Word::Formula(ranked.formula().items()),
            Word::Number(ranked.score()),
            Word::Number(ranked.size()),
            Word::Number(ranked.bound()),
        ],
    )
}

/// The lines of a job: its own, and those of the formulas that it found, which may stand in any order, by rising score,
/// ties in their order.
pub fn rank_text(
    alloc: Global,
    peak: u64,
    mz: u64,
    done: bool,
    found: &[Ranked],
) -> Result<Vec<u8>, AllocError>
    ensures { IfOk result (λ text. text.items ≡ rank_text peak mz done found.now) }
{
    let mut text = Vec::new(alloc);
    push_rank_text(alloc, &mut text, peak, mz, done, found)?;
    Ok(text)
}

/// Appends the lines of a job, as [`rank_text`] gives them. Without room for them the report stays as it was.
pub fn push_rank_text(
    alloc: Global,
    report: &mut Vec<u8>,
    peak: u64,
    mz: u64,
    done: bool,
    found: &[Ranked],
) -> Result<(), AllocError>
    ensures lines { OnOk result (report.new.items ≡ report.old.items ++ rank_text peak mz done found.now) }
    ensures refused { OnErr result (report.new.items ≡ report.old.items) }
{
    let order = in_order(alloc, found)?;
    let start = report.len();
    let pushed = push_job_lines(report, peak, mz, done, found.len() as u64, &order);
    cut_unless_pushed(report, start, pushed)
}

/// Appends the lines of a job and of formulas that stand in their places, or as many as there is room for.
fn push_job_lines(
    report: &mut Vec<u8>,
    peak: u64,
    mz: u64,
    done: bool,
    found: u64,
    order: &[&Ranked],
) -> Result<(), AllocError>
    ensures lines { OnOk result (report.new.items ≡ report.old.items
        ++ (job_line peak mz done found ++ place_lines (map (λ r. r.now) order.now))) }
    ensures kept { OnErr result (take (length report.old.items) report.new.items ≡ report.old.items) }
{
    push_job_line(report, peak, mz, done, found)?;
    push_place_lines(report, order)
}

/// Appends the lines of formulas that stand in their places, or as many as there is room for.
fn push_place_lines(report: &mut Vec<u8>, order: &[&Ranked]) -> Result<(), AllocError>
    ensures lines { OnOk result (
        report.new.items ≡ report.old.items ++ place_lines (map (λ r. r.now) order.now)) }
    ensures kept { OnErr result (take (length report.old.items) report.new.items ≡ report.old.items) }
{
    for (i, ranked) in order.iter().enumerate() {
        push_place_line(report, i as u64 + 1, ranked)?;
    }
    Ok(())
}

/// Formulas by rising score, ties in their order.
pub(crate) fn in_order<'a>(
    alloc: Global,
    found: &'a [Ranked],
) -> Result<Vec<&'a Ranked>, AllocError>
    ensures { IfOk result (λ order. map (λ r. r.now) order.items ≡ by_score found.now) }
{
    let mut order = Vec::new(alloc);
    for place in &in_places(alloc, found)? {
        order.push(entry_at(found, *place))?;
    }
    Ok(order)
}

/// The ranked formula at a place.
fn entry_at(found: &[Ranked], place: usize) -> &Ranked
    requires { place < length found.now }
    ensures { result.now ≡ slice_index_or found.now place result.now }
{
    &found[place]
}
