//! The program: from its words and a shelf of files to an output, notes and a status.
ghost use Rattle.std.specs.Prelude.{◌≡◌, ◌≢◌, ◌<◌, ◌≤◌, ◌⊎◌, ◌++◌, ℕ, List, map, take, string_bytes, Some, Result, Ok};
ghost use Rattle.std.specs.Prelude.{Err, IfErr, IfOk, IfSome, IsErr, IsOkAnd};
ghost use Rattle.outside_ports.specs.Faults.{Rose};
ghost use Rattle.mass_scaling.specs.Limits.{IsTolerance};
ghost use Rattle.mass_scaling.specs.declared.limits.TheConstants.{MAX_MZ};
ghost use Rattle.command_words.specs.Requests.{HasRanges, IsWithin};
ghost use Rattle.command_words.specs.declared.options.TheConstants.{MAX_COVERAGE, MAX_NUMBER, MAX_PEAK, MIN_COVERAGE};
ghost use Rattle.command_words.specs.declared.options.TheConstants.{MIN_MZ, MIN_PEAK};
ghost use Rattle.command_words.specs.WordReading.{request_of};
ghost use Rattle.command_io.specs.Notes.{note_of, status_of};
ghost use Rattle.command_io.specs.declared.refusal.Refusal.TheVariants.{Memory, WriteFault};
ghost use Rattle.formula_reports.specs.Answers.{decompose_names, decompose_query};
ghost use Rattle.cover_reports.specs.Answers.{certified_query, check_names, check_query, envelope_names};
ghost use Rattle.cover_reports.specs.Answers.{envelope_query};
ghost use Rattle.ranking_reports.specs.Answers.{generate_names, generate_query, rank_names, rank_query};
ghost use Rattle.isoform.specs.Answer.{Certified, Checked, Generates, IsReport, cover_in, formulas_in, ranks_in};
ghost use Rattle.isoform.specs.Answer.{answer, answer_of_request, file_names, names_of_request, asked_as};
ghost use Rattle.isoform.specs.CertificateClaims.{IsAcceptedLater, IsTrueCheck};
ghost use Rattle.isoform.specs.Claims.{Holds};
ghost use Rattle.isoform.specs.Outside.{EndsAs, IsPut, IsTold, ReceivesAll, ReceivesSomeOf, RefusesWords, Runs, Serves};
ghost use Rattle.isoform.specs.Outside.{Shows, TellsLastName, TellsNote, outside, status_of_answer};

use command_io::{MEMORY_NOTE, Refusal, WRITE_FAULT_NOTE};
use command_words::{Request, request_of};
use cover_reports::{CertifiedCover, Check, CheckOptions, Envelope, EnvelopeOptions};
use formula_reports::{DecomposeOptions, Decomposition};
use outside_ports::{Shelf, Sink};
use prediction_score::PeakOrder;
use ranking_reports::{
    GenerateOptions, Generation, RankOptions, ranked_peaks, read_ranking, write_ranking,
    write_ranking_json,
};
use std::alloc::{AllocError, Global};

/// Serves `decompose`: reads what it is over, and writes its report or says why there is none.
fn serve_decompose<H: Shelf, O: Sink>(
    alloc: Global,
    options: &DecomposeOptions,
    json: bool,
    shelf: &mut H,
    out: &mut O,
) -> Result<(), Refusal>
    requires mass { IsWithin MIN_MZ MAX_MZ options.now.mass }
    requires tolerance { IsTolerance options.now.tolerance }
    ensures { Serves (decompose_names options.now) (λ files. asked_as (formulas_in json) (decompose_query options.now files))
        (H.held shelf.old) (H.held shelf.new)
        (outside (H.asked shelf.old) (H.faults shelf.old) (O.written out.old) (O.faults out.old))
        (outside (H.asked shelf.new) (H.faults shelf.new) (O.written out.new) (O.faults out.new)) result }
{
    let decomposition = Decomposition::read(alloc, options, shelf)?;
    if json {
        return decomposition.write_json(alloc, out);
    }
    decomposition.write(alloc, out)
}

/// Serves `envelope` in the same way.
fn serve_envelope<H: Shelf, O: Sink>(
    alloc: Global,
    options: &EnvelopeOptions,
    json: bool,
    shelf: &mut H,
    out: &mut O,
) -> Result<(), Refusal>
    requires from { MIN_COVERAGE ≤ options.now.coverage }
    requires to { options.now.coverage ≤ MAX_COVERAGE }
    ensures { Serves (envelope_names options.now) (λ files. asked_as (cover_in json) (envelope_query options.now files))
        (H.held shelf.old) (H.held shelf.new)
        (outside (H.asked shelf.old) (H.faults shelf.old) (O.written out.old) (O.faults out.old))
        (outside (H.asked shelf.new) (H.faults shelf.new) (O.written out.new) (O.faults out.new)) result }
{
    let envelope = Envelope::read(alloc, options, shelf)?;
    if json {
        return envelope.write_json(alloc, out);
    }
    envelope.write(alloc, out)
}

/// Serves `envelope` where the certificate is asked for.
fn serve_certified<H: Shelf, O: Sink>(
    alloc: Global,
    options: &EnvelopeOptions,
    shelf: &mut H,
    out: &mut O,
) -> Result<(), Refusal>
    requires from { MIN_COVERAGE ≤ options.now.coverage }
    requires to { options.now.coverage ≤ MAX_COVERAGE }
    ensures { Serves (envelope_names options.now) (λ files. asked_as Certified (certified_query options.now files))
        (H.held shelf.old) (H.held shelf.new)
        (outside (H.asked shelf.old) (H.faults shelf.old) (O.written out.old) (O.faults out.old))
        (outside (H.asked shelf.new) (H.faults shelf.new) (O.written out.new) (O.faults out.new)) result }
{
    let certified = CertifiedCover::read(alloc, options, shelf)?;
    certified.write(out)
}

/// Serves `check`.
fn serve_check<H: Shelf, O: Sink>(
    alloc: Global,
    options: &CheckOptions,
    shelf: &mut H,
    out: &mut O,
) -> Result<(), Refusal>
    ensures { Serves (check_names options.now) (λ files. asked_as Checked (check_query options.now files))
        (H.held shelf.old) (H.held shelf.new)
        (outside (H.asked shelf.old) (H.faults shelf.old) (O.written out.old) (O.faults out.old))
        (outside (H.asked shelf.new) (H.faults shelf.new) (O.written out.new) (O.faults out.new)) result }
{
    let check = Check::read(alloc, options, shelf)?;
    check.write(alloc, out)
}

/// Serves `rank`. All jobs have their turns before the first line is put.
fn serve_rank<H: Shelf, O: Sink>(
    alloc: Global,
    options: &RankOptions,
    json: bool,
    shelf: &mut H,
    out: &mut O,
) -> Result<(), Refusal>
    requires tolerance { IsTolerance options.now.tolerance }
    requires from { MIN_COVERAGE ≤ options.now.coverage }
    requires to { options.now.coverage ≤ MAX_COVERAGE }
    requires peak { IsWithin MIN_PEAK MAX_PEAK options.now.peak }
    requires turn { 1 ≤ options.now.turn }
    ensures { Serves (rank_names options.now) (λ files. asked_as (ranks_in json) (rank_query options.now files))
        (H.held shelf.old) (H.held shelf.new)
        (outside (H.asked shelf.old) (H.faults shelf.old) (O.written out.old) (O.faults out.old))
        (outside (H.asked shelf.new) (H.faults shelf.new) (O.written out.new) (O.faults out.new)) result }
{
    let ranking = read_ranking(alloc, options, shelf)?;
    let order = PeakOrder::of(alloc, ranking.peaks())?;
    let ranked = ranked_peaks(alloc, &ranking, &order)?;
    if json {
        return write_ranking_json(alloc, &ranking, &ranked, out);
    }
    write_ranking(alloc, &ranking, &ranked, out)
}

/// Serves `generate` in the same way.
fn serve_generate<H: Shelf, O: Sink>(
    alloc: Global,
    options: &GenerateOptions,
    shelf: &mut H,
    out: &mut O,
) -> Result<(), Refusal>
    requires { options.now.number ≤ MAX_NUMBER }
    ensures { Serves (generate_names options.now) (λ files. asked_as Generates (generate_query options.now files))
        (H.held shelf.old) (H.held shelf.new)
        (outside (H.asked shelf.old) (H.faults shelf.old) (O.written out.old) (O.faults out.old))
        (outside (H.asked shelf.new) (H.faults shelf.new) (O.written out.new) (O.faults out.new)) result }
{
    let generation = Generation::read(alloc, options, shelf)?;
    let ranking = generation.ranking();
    let order = PeakOrder::of(alloc, ranking.peaks())?;
    let ranked = ranked_peaks(alloc, ranking, &order)?;
    generation.write(alloc, &ranked, out)
}

/// Serves a request.
fn serve_request<H: Shelf, O: Sink>(
    alloc: Global,
    request: Request,
    shelf: &mut H,
    out: &mut O,
) -> Result<(), Refusal>
    requires { HasRanges request }
    ensures { Serves (names_of_request request) (answer_of_request request) (H.held shelf.old) (H.held shelf.new)
        (outside (H.asked shelf.old) (H.faults shelf.old) (O.written out.old) (O.faults out.old))
        (outside (H.asked shelf.new) (H.faults shelf.new) (O.written out.new) (O.faults out.new)) result }
{
    match request {
        Request::Decompose {
            table,
            mass,
            peaks,
            tolerance,
            alphabet,
            adduct,
            rules,
            limit,
            after,
            json,
        } => {
            let options = DecomposeOptions {
                table,
                mass,
                peaks,
                tolerance,
                alphabet,
                adduct,
                rules,
                limit,
                after,
            };
            serve_decompose(alloc, &options, json, shelf, out)
        }
        Request::Envelope {
            table,
            tracer,
            adduct,
            formula,
            coverage,
            certificate,
            json,
        } => {
            let options = EnvelopeOptions {
                table,
                tracer,
                adduct,
                formula,
                coverage,
            };
            if certificate {
                return serve_certified(alloc, &options, shelf, out);
            }
            serve_envelope(alloc, &options, json, shelf, out)
        }
        Request::Check {
            table,
            tracer,
            certificate,
        } => {
            let options = CheckOptions {
                table,
                tracer,
                certificate,
            };
            serve_check(alloc, &options, shelf, out)
        }
        Request::Rank {
            table,
            tracer,
            peaks,
            tolerance,
            alphabet,
            adduct,
            rules,
            coverage,
            peak,
            turn,
            turns,
            json,
        } => {
            let options = RankOptions {
                table,
                tracer,
                peaks,
                tolerance,
                alphabet,
                adduct,
                rules,
                coverage,
                peak,
                turn,
                turns,
            };
            serve_rank(alloc, &options, json, shelf, out)
        }
        Request::Generate { table, number } => {
            let options = GenerateOptions { table, number };
            serve_generate(alloc, &options, shelf, out)
        }
    }
}

/// Serves the words: what they ask for, or why it is refused.
fn serve<H: Shelf, O: Sink>(
    alloc: Global,
    words: &Vec<String>,
    shelf: &mut H,
    out: &mut O,
) -> Result<(), Refusal>
    ensures held { H.held shelf.new ≡ H.held shelf.old }
    ensures words { RefusesWords (request_of (map string_bytes words.now.items)) result }
    ensures shows { Shows (file_names (map string_bytes words.now.items))
        (outside (H.asked shelf.old) (H.faults shelf.old) (O.written out.old) (O.faults out.old))
        (outside (H.asked shelf.new) (H.faults shelf.new) (O.written out.new) (O.faults out.new)) result }
    ensures answers { IfSome (H.held shelf.old) (λ files. EndsAs (answer (map string_bytes words.now.items) files)
        (outside (H.asked shelf.old) (H.faults shelf.old) (O.written out.old) (O.faults out.old))
        (outside (H.asked shelf.new) (H.faults shelf.new) (O.written out.new) (O.faults out.new)) result) }
{
    let request = request_of(alloc, words)?;
    serve_request(alloc, request, shelf, out)
}

/// Tells the notes why there is no report, and answers the status. Where there is no memory for the
/// note, want of memory is told.
fn refuse<M: Sink>(alloc: Global, refusal: Refusal, notes: &mut M) -> u8
    ensures { (told : Refusal) × IsTold refusal told × (result ≡ status_of told)
        × IsPut (note_of told) (M.written notes.old) (M.faults notes.old) (M.written notes.new) (M.faults notes.new) }
{
    match &refusal {
        Refusal::WriteFault => tell(WRITE_FAULT_NOTE, notes),
        Refusal::Memory => tell(MEMORY_NOTE, notes),
        _ => match refusal.note(alloc) {
            Ok(note) => tell(&note, notes),
            Err(AllocError) => {
                tell(MEMORY_NOTE, notes);
                return Refusal::Memory.status();
            }
        },
    }
    refusal.status()
}

/// Puts a note. That it may fail changes nothing else.
fn tell<M: Sink>(note: &[u8], notes: &mut M)
    ensures { IsPut note.now (M.written notes.old) (M.faults notes.old) (M.written notes.new) (M.faults notes.new) }
{
    let _ = notes.put(note);
}

/// Runs the program on the words behind its name, and answers its exit status.
///
/// Status 0: the report was written. 1: the certificate isn't accepted. 2: the words are no request, or a value is
/// outside its range. 3: the table or the tracer has a fault. 4: the peaks have one, or none has the number asked for.
/// 5: the alphabet, the adduct, the rules, the formula after which a list is to begin, the formula or the text of the
/// certificate has one, that formula isn't in the box, or the ion isn't defined. 6: a file is longer than 16,777,216
/// bytes, that of a certificate longer than 268,435,456, a peak has more than 1,048,576 formulas where no number of
/// them is asked for, the ion has too many isotopologues, or the text of its certificate is longer than the file of one
/// may be. 7: a file could not be read. 8: the report could not be written. 9: want of memory.
/// With every status but 0 the notes receive one line.
pub fn run<H: Shelf, O: Sink, M: Sink>(
    alloc: Global,
    words: &Vec<String>,
    shelf: &mut H,
    out: &mut O,
    notes: &mut M,
) -> u8
    // Nothing that the shelf holds changes.
    ensures held { H.held shelf.new ≡ H.held shelf.old }

    // The whole: the run ends as the answer for its words and the files says, or by a device that failed, or for want
    // of memory; and the shelf, the output and the notes show that ending.
    ensures runs { let given = map string_bytes words.now.items in
        Runs (file_names given) (request_of given) (H.held shelf.old) (answer given)
        (outside (H.asked shelf.old) (H.faults shelf.old) (O.written out.old) (O.faults out.old))
        (outside (H.asked shelf.new) (H.faults shelf.new) (O.written out.new) (O.faults out.new))
        (M.written notes.old) (M.faults notes.old) (M.written notes.new) (M.faults notes.new) result }

    // Its parts, each to be read alone. Status 0: `out` received the report, and what it claims holds: the formulas of
    // `decompose` are those of each peak, each once and in order; the isotopologues of `envelope` have the coverage in
    // exact weights, and no set with fewer members than its bound has it; those that `rank` ranks of a peak are the first
    // of exactly its formulas, as many as its turns allow.
    ensures reported { result ≡ 0 → IfSome (H.held shelf.old) (λ files.
        IsOkAnd (answer (map string_bytes words.now.items) files).result (λ outcome.
        ReceivesAll outcome (O.written out.old) (O.written out.new) × Holds outcome)) }

    // What `check` accepted is true, by exact weights, of the table, with the tracer's weights where one is named.
    ensures true_check { result ≡ 0 → IfSome (H.held shelf.old) (λ files.
        IfOk (request_of (map string_bytes words.now.items)) (λ request. IsTrueCheck request files)) }

    // The certificate that `envelope` printed is accepted, whatever files hold it beside the same table and tracer.
    ensures accepted_later { result ≡ 0 → IfSome (H.held shelf.old) (λ files.
        IfOk (request_of (map string_bytes words.now.items)) (λ request.
        IsOkAnd (answer (map string_bytes words.now.items) files).result (λ outcome.
        (bytes : List ℕ) → IsReport outcome bytes → IsAcceptedLater request files bytes))) }

    // A status that no device and no want of memory brings about is that of the answer.
    ensures caused { result ≢ 7 → result ≢ 8 → result ≢ 9 → IfSome (H.held shelf.old) (λ files.
        result ≡ status_of_answer (answer (map string_bytes words.now.items) files)) }

    // Where no device failed the status is the answer's, unless memory ran out.
    ensures answered { ¬ Rose (H.faults shelf.old) (H.faults shelf.new) → ¬ Rose (O.faults out.old) (O.faults out.new) →
        IfSome (H.held shelf.old) (λ files.
        (result ≡ 9) ⊎ (result ≡ status_of_answer (answer (map string_bytes words.now.items) files))) }

    // Status 2 comes exactly where the words are no request, whatever the shelf tells, unless memory ran out.
    ensures refused_words { result ≡ 2 → IsErr (request_of (map string_bytes words.now.items)) }
    ensures no_request { IfErr (request_of (map string_bytes words.now.items)) (λ fault. (result ≡ 2) ⊎ (result ≡ 9)) }

    // A device is blamed only where its count of faults rose in this run, and always where it is greater.
    ensures read_fault { result ≡ 7 → Rose (H.faults shelf.old) (H.faults shelf.new) }
    ensures write_fault { result ≡ 8 → Rose (O.faults out.old) (O.faults out.new) }
    ensures risen_reads { H.faults shelf.old < H.faults shelf.new → (result ≡ 7) ⊎ (result ≡ 9) }
    ensures risen_writes { O.faults out.old < O.faults out.new → result ≡ 8 }

    // The names asked are some first ones of those that the words have, in the order of refusals.
    ensures asked { (asked : ℕ) × (H.asked shelf.new
        ≡ H.asked shelf.old ++ take asked (file_names (map string_bytes words.now.items))) }

    // None of them stands behind the refusal that is answered: they are the names of the answer, or some first ones of
    // these where a file couldn't be read or memory ran out.
    ensures asked_up_to { result ≢ 7 → result ≢ 9 → IfSome (H.held shelf.old) (λ files.
        H.asked shelf.new ≡ H.asked shelf.old ++ (answer (map string_bytes words.now.items) files).names) }
    ensures asked_within { IfSome (H.held shelf.old) (λ files. (asked : ℕ) × (H.asked shelf.new
        ≡ H.asked shelf.old ++ take asked (answer (map string_bytes words.now.items) files).names)) }

    // With status 8 or 9 some first bytes of the report were received, and none where there is no report; with a
    // status other than 0, 8 and 9 nothing was.
    ensures some_received { (result ≡ 8) ⊎ (result ≡ 9) → IfSome (H.held shelf.old) (λ files.
        ReceivesSomeOf (answer (map string_bytes words.now.items) files).result
        (O.written out.old) (O.written out.new)) }
    ensures nothing { result ≢ 0 → result ≢ 8 → result ≢ 9 → O.written out.new ≡ O.written out.old }

    // The notes receive nothing with status 0, that of the answer's refusal with the status of the answer, the last
    // name asked with status 7, and a text of their own with status 8 and 9; or some first bytes of these, where their
    // own count of faults rose.
    ensures noted { result ≢ 7 → result ≢ 8 → result ≢ 9 → IfSome (H.held shelf.old) (λ files.
        TellsNote (M.written notes.old) (M.faults notes.old) (M.written notes.new) (M.faults notes.new)
        (answer (map string_bytes words.now.items) files).result) }
    ensures silent { result ≡ 0 → M.written notes.new ≡ M.written notes.old }
    ensures last_name { result ≡ 7 → TellsLastName (H.asked shelf.new)
        (M.written notes.old) (M.faults notes.old) (M.written notes.new) (M.faults notes.new) }
    ensures write_note { result ≡ 8 → IsPut (note_of WriteFault)
        (M.written notes.old) (M.faults notes.old) (M.written notes.new) (M.faults notes.new) }
    ensures memory_note { result ≡ 9 → IsPut (note_of Memory)
        (M.written notes.old) (M.faults notes.old) (M.written notes.new) (M.faults notes.new) }
{
    match serve(alloc, words, shelf, out) {
        Ok(()) => 0,
        Err(refusal) => refuse(alloc, refusal, notes),
    }
}
