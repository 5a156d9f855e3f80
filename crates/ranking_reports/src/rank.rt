//! `rank`: the candidates of peaks by rising score.
ghost use Rattle.std.specs.Prelude.{◌≡◌, ◌+◌, ◌<◌, ◌≤◌, ◌∷◌, [], IfOk, IfSome, IsOk, length, map, slice_get};
ghost use Rattle.std.specs.List.{enumerate_from, flat_map};
ghost use Rattle.mass_scaling.specs.Limits.{IsTolerance};
ghost use Rattle.command_words.specs.Requests.{IsWithin};
ghost use Rattle.command_words.specs.declared.options.TheConstants.{MAX_COVERAGE, MAX_PEAK, MIN_COVERAGE, MIN_PEAK};
ghost use Rattle.peak_text.specs.PeakLists.{ArePeaks};
ghost use Rattle.peak_ranking.specs.RankQueries.{IsRankQuery};
ghost use Rattle.peak_ranking.specs.RankedJobs.{ranked_jobs};
ghost use Rattle.command_io.specs.Parts.{IsPart, Puts, shelved};
ghost use Rattle.command_io.specs.Refusals.{GivesInput};
ghost use Rattle.ranking_reports.specs.Answers.{rank_names, rank_reading};
ghost use Rattle.ranking_reports.specs.Claims.{RanksTrue};
ghost use Rattle.ranking_reports.specs.Reports.{job_in, job_lines, rank_json, rank_report};
ghost use Rattle.ranking_reports.specs.Steps.{peak_list_in, peak_list_step, ranked_places, unless_stopped};

use command_io::{
    InputFault, MAX_FILE_BYTES, Refusal, fetch_file, ground_of, put_line, put_text, table_of,
    traced_table,
};
use command_words::Word;
use mass_scaling::Tolerance;
use outside_ports::{Shelf, Sink};
use peak_ranking::{PeakRanking, RankedPeaks};
use peak_text::{Peaks, read_peaks};
use prediction_score::PeakOrder;
use ranking::RankFault;
use report_text::{Report, json_text, rank_head, rank_text};
use std::alloc::{AllocError, Global};

/// The options of `rank`, as its request has them.
#[derive(Drop)]
pub struct RankOptions {
    pub table: Word,
    pub tracer: Option<Word>,
    pub peaks: Word,
    pub tolerance: Tolerance,
    pub alphabet: Word,
    pub adduct: Word,
    pub rules: Word,
    pub coverage: u64,
    pub peak: Option<u64>,
    pub turn: u64,
    pub turns: Option<u64>,
}

/// Reads which peaks are ranked, and on which premises.
pub fn read_ranking<H: Shelf>(
    alloc: Global,
    options: &RankOptions,
    shelf: &mut H,
) -> Result<PeakRanking, Refusal>
    requires tolerance { IsTolerance options.now.tolerance }
    requires from { MIN_COVERAGE ≤ options.now.coverage }
    requires to { options.now.coverage ≤ MAX_COVERAGE }
    requires peak { IsWithin MIN_PEAK MAX_PEAK options.now.peak }
    requires turn { 1 ≤ options.now.turn }
    ensures { IsPart (λ r. r) (rank_names options.now) (rank_reading options.now)
        (shelved (H.held shelf.old) (H.asked shelf.old) (H.faults shelf.old))
        (shelved (H.held shelf.new) (H.asked shelf.new) (H.faults shelf.new)) result }
{
    let table = table_of(alloc, &options.table, shelf)?;
    let traced = traced_table(alloc, table, &options.tracer, shelf)?;
    let peaks = peak_list_of(alloc, &options.peaks, shelf)?;
    let places = ranked_places(options.peak, peaks.mz().len())?;
    let premises = ground_of(
        alloc,
        traced,
        options.tolerance,
        &options.alphabet,
        &options.adduct,
        &options.rules,
        shelf,
    )?;
    Ok(PeakRanking::of(
        premises,
        peaks,
        places,
        options.coverage,
        options.turn,
        options.turns,
    ))
}

/// The peaks that bytes are.
fn peak_list_in(alloc: Global, bytes: &[u8]) -> Result<Peaks, Refusal>
    ensures { GivesInput (λ peaks. peaks) (peak_list_in bytes.now) result }
{
    Ok(read_peaks(alloc, bytes)?)
}

/// The peaks of a file.
fn peak_list_of<H: Shelf>(alloc: Global, name: &Word, shelf: &mut H) -> Result<Peaks, Refusal>
    ensures { IsPart (λ peaks. peaks) (name.now ∷ []) (peak_list_step name.now)
        (shelved (H.held shelf.old) (H.asked shelf.old) (H.faults shelf.old))
        (shelved (H.held shelf.new) (H.asked shelf.new) (H.faults shelf.new)) result }
{
    let bytes = fetch_file(alloc, name, MAX_FILE_BYTES, shelf)?;
    peak_list_in(alloc, &bytes)
}

/// The place of the first peak that is ranked, from 0, and how many are: the one of a number, or all.
fn ranked_places(peak: Option<u64>, count: usize) -> Result<(usize, usize), Refusal>
    requires { IsWithin MIN_PEAK MAX_PEAK peak }
    ensures places { GivesInput (λ places. places) (ranked_places peak count) result }
    ensures inside { IfOk result (λ places. places.0 + places.1 ≤ count) }
{
    match peak {
        None => Ok((0, count)),
        Some(number) if number <= count as u64 => Ok((number as usize - 1, 1)),
        Some(number) => Err(Refusal::Input(InputFault::NoPeak { peak: number })),
    }
}

/// The peaks after the turns of their jobs. A peak with too many candidates, or an ion with too many isotopologues, that
/// is met in a turn is refused.
pub fn ranked_peaks<'t>(
    alloc: Global,
    ranking: &'t PeakRanking,
    order: &'t PeakOrder<'t>,
) -> Result<RankedPeaks<'t>, Refusal>
    requires { order.now ≡ ranking.now.peaks }
    ensures ranked { GivesInput (λ ranked. ranked) (unless_stopped ranking.now (ranked_jobs ranking.now)) result }
    ensures holds { IsOk result → RanksTrue ranking.now }
{
    match ranking.play(alloc, order) {
        Ok(ranked) => Ok(ranked),
        Err(RankFault::TooMany { peak }) => Err(Refusal::Input(InputFault::CandidateLimit {
            peak,
        })),
        Err(RankFault::Layer { formula, .. }) => Err(Refusal::Input(InputFault::Layer(formula))),
        Err(RankFault::Memory) => Err(Refusal::Memory),
    }
}

/// Puts the report of ranked peaks, line by line.
pub fn write_ranking<O: Sink>(
    alloc: Global,
    ranking: &PeakRanking,
    ranked: &RankedPeaks<'_>,
    out: &mut O,
) -> Result<(), Refusal>
    requires ranked { ranked.now ≡ ranked_jobs ranking.now }
    requires query { IsRankQuery ranking.now }
    ensures { Puts (rank_report ranking.now)
        (O.written out.old) (O.written out.new) (O.faults out.old) (O.faults out.new) result }
{
    put_text(&rank_head(alloc, ranking.jobs() as u64)?, out)?;
    write_jobs(alloc, ranking, ranked, out)
}

/// Puts the report of ranked peaks as one line of JSON.
pub fn write_ranking_json<O: Sink>(
    alloc: Global,
    ranking: &PeakRanking,
    ranked: &RankedPeaks<'_>,
    out: &mut O,
) -> Result<(), Refusal>
    requires ranked { ranked.now ≡ ranked_jobs ranking.now }
    requires query { IsRankQuery ranking.now }
    ensures { Puts (rank_json ranking.now)
        (O.written out.old) (O.written out.new) (O.faults out.old) (O.faults out.new) result }
{
    let report = job_entries(alloc, ranking, ranked)?;
    put_line(&json_text(alloc, &report)?, out)
}

/// The entries of the jobs.
fn job_entries(
    alloc: Global,
    ranking: &PeakRanking,
    ranked: &RankedPeaks<'_>,
) -> Result<Report, AllocError>
    requires { ranking.now.first + length ranked.now ≤ length ranking.now.peaks }
    ensures { IfOk result (λ report. report
        ≡ Report.Rank (map (job_in ranking.now) (enumerate_from ranking.now.first ranked.now))) }
{
    let mut report = Report::rank(alloc);
    let mzs = ranking.peaks().mz();
    for job in 0..ranked.job_count() {
        let place = ranking.first() + job;
        let found = ranked.found(job);
        let done = ranked.is_done(job);
        report.add_job(alloc, place as u64 + 1, mzs[place], done, found)?;
    }
    Ok(report)
}

/// Puts the lines of the jobs.
fn write_jobs<O: Sink>(
    alloc: Global,
    ranking: &PeakRanking,
    ranked: &RankedPeaks<'_>,
    out: &mut O,
) -> Result<(), Refusal>
    requires { ranking.now.first + length ranked.now ≤ length ranking.now.peaks }
    ensures { Puts (flat_map (job_lines ranking.now) (enumerate_from ranking.now.first ranked.now))
        (O.written out.old) (O.written out.new) (O.faults out.old) (O.faults out.new) result }
{
    for job in 0..ranked.job_count() {
        write_job(alloc, ranking, ranked, job, out)?;
    }
    Ok(())
}

/// Puts the lines of a job.
fn write_job<O: Sink>(
    alloc: Global,
    ranking: &PeakRanking,
    ranked: &RankedPeaks<'_>,
    job: usize,
    out: &mut O,
) -> Result<(), Refusal>
    requires there { job < length ranked.now }
    requires inside { ranking.now.first + length ranked.now ≤ length ranking.now.peaks }
    ensures { IfSome (slice_get ranked.now job) (λ progress. Puts
        (job_lines ranking.now (ranking.now.first + job, progress))
        (O.written out.old) (O.written out.new) (O.faults out.old) (O.faults out.new) result) }
{
    let mzs = ranking.peaks().mz();
    let place = ranking.first() + job;
    let (done, found) = (ranked.is_done(job), ranked.found(job));
    let text = rank_text(alloc, place as u64 + 1, mzs[place], done, found)?;
    put_text(&text, out)
}
