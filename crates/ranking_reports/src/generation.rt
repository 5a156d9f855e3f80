//! `generate`: peaks that are made from a number, ranked.
ghost use Rattle.std.specs.Prelude.{◌≡◌, ◌≤◌, ◌++◌, All, IfOk, IsOk, OnOk, length};
ghost use Rattle.alphabet_text.specs.Alphabets.{IsEntryOf};
ghost use Rattle.command_words.specs.declared.options.TheConstants.{MAX_NUMBER};
ghost use Rattle.formula_text.specs.Masses.{HasItems};
ghost use Rattle.peak_generator.specs.MadeFormulas.{element_counts, made_formulas};
ghost use Rattle.peak_ranking.specs.RankedJobs.{ranked_jobs};
ghost use Rattle.command_io.specs.Parts.{IsPart, Puts, shelved};
ghost use Rattle.command_io.specs.Refusals.{GivesInput};
ghost use Rattle.command_io.specs.Steps.{adduct_step, alphabet_step};
ghost use Rattle.ranking_reports.specs.Answers.{generate_names, generate_reading, generation_over, made_adduct};
ghost use Rattle.ranking_reports.specs.Answers.{made_alphabet, made_step};
ghost use Rattle.ranking_reports.specs.Reports.{count_line, generate_report};

use adducts::{Adduct, read_adduct};
use alphabet_text::{Alphabet, read_alphabet};
use candidates::Ground;
use command_io::{Refusal, put_text, table_of};
use command_words::{DEFAULT_TURN, Word};
use element_table::Table;
use formula_text::Formula;
use golden_rules::Rules;
use mass_scaling::Tolerance;
use outside_ports::{Shelf, Sink};
use peak_generator::{made_formulas, made_peaks};
use peak_ranking::{PeakRanking, RankedPeaks};
use peak_text::Peaks;
use std::alloc::{AllocError, Global};
use std::marker::Model;

/// How many peaks are made.
pub const MADE_PEAKS: u64 = 200;

/// How far from a made m/z an ion may be: 2 ppm, in thousandths.
pub const MADE_PPM: u64 = 2_000;

/// The coverage for which made peaks are ranked: 0.9, in 10^-18.
pub const MADE_COVERAGE: u64 = 900_000_000_000_000_000;

/// The options of `generate`, as its request has them.
#[derive(Drop)]
pub struct GenerateOptions {
    pub table: Word,
    pub number: u64,
}

/// The ranking of the peaks that a number makes, with the formulas that they are made of. It is seen as that query.
#[derive(Drop)]
pub struct Generation {
    number: u64,
    formulas: Vec<Formula>,
    ranking: PeakRanking,
}

impl Model for Generation {
    ghost use Rattle.std.specs.Prelude.{◌≡◌, length};
    ghost use Rattle.peak_generator.specs.MadeFormulas.{made_formulas};
    ghost use Rattle.ranking_reports.specs.Queries.{GenerateQuery};
    ghost use Rattle.ranking_reports.specs.declared.generation.TheConstants.{MADE_PEAKS};

    ghost Value = { GenerateQuery };

    ghost view = { λ g. record { number = g.number; ranking = g.ranking } };

    ghost invariant = { λ g. (g.formulas.items ≡ made_formulas g.number MADE_PEAKS)
        × (g.ranking.first ≡ 0) × (g.ranking.jobs ≡ MADE_PEAKS) };
}

impl Generation {
    /// Reads what is ranked.
    pub fn read<H: Shelf>(
        alloc: Global,
        options: &GenerateOptions,
        shelf: &mut H,
    ) -> Result<Generation, Refusal>
        requires { options.now.number ≤ MAX_NUMBER }
        ensures { IsPart (λ g. g) (generate_names options.now) (generate_reading options.now)
            (shelved (H.held shelf.old) (H.asked shelf.old) (H.faults shelf.old))
            (shelved (H.held shelf.new) (H.asked shelf.new) (H.faults shelf.new)) result }
    {
        let table = table_of(alloc, &options.table, shelf)?;
        Generation::over(alloc, table, options.number)
    }

    /// What is ranked over a table.
    fn over(alloc: Global, table: Table, number: u64) -> Result<Generation, Refusal>
        requires { number ≤ MAX_NUMBER }
        ensures { GivesInput (λ g. g) (generation_over number table) result }
    {
        let alphabet = made_alphabet(alloc, &table)?;
        let adduct = made_adduct(alloc, &table)?;
        let formulas = made_formulas(alloc, number, MADE_PEAKS)?;
        let peaks = peaks_of_made(alloc, &table, &adduct, number, &formulas)?;
        let tolerance = Tolerance::Ppm {
            thousandths: MADE_PPM,
        };
        let rules = Rules::none(alloc);
        let premises = Ground::of(alloc, table, alphabet, adduct, tolerance, rules)?;
        let places = (0, peaks.mz().len());
        Ok(Generation {
            number,
            formulas,
            ranking: PeakRanking::of(premises, peaks, places, MADE_COVERAGE, DEFAULT_TURN, None),
        })
    }

    /// The ranking of the peaks.
    pub fn ranking(&self) -> &PeakRanking
        ensures { result.now ≡ self.now.ranking }
    {
        &self.ranking
    }

    /// Puts the report, line by line.
    pub fn write<O: Sink>(
        &self,
        alloc: Global,
        ranked: &RankedPeaks<'_>,
        out: &mut O,
    ) -> Result<(), Refusal>
        requires { ranked.now ≡ ranked_jobs self.now.ranking }
        ensures { Puts (generate_report self.now)
            (O.written out.old) (O.written out.new) (O.faults out.old) (O.faults out.new) result }
    {
        put_text(&self.report(alloc, ranked)?, out)
    }

    /// The report.
    fn report(&self, alloc: Global, ranked: &RankedPeaks<'_>) -> Result<Vec<u8>, AllocError>
        requires { ranked.now ≡ ranked_jobs self.now.ranking }
        ensures { IfOk result (λ text. text.items ≡ generate_report self.now) }
    {
        let mut text = Vec::new(alloc);
        push_count(alloc, &mut text, "generate", u128::from(self.number))?;
        push_count(alloc, &mut text, "peaks", u128::from(MADE_PEAKS))?;
        push_count(alloc, &mut text, "candidates", ranked.candidate_count())?;
        push_count(alloc, &mut text, "members", ranked.member_count())?;
        let found = ranked.found_count(&self.formulas);
        push_count(alloc, &mut text, "found", u128::from(found))?;
        let first = ranked.first_count(alloc, &self.formulas)?;
        push_count(alloc, &mut text, "first", u128::from(first))?;
        Ok(text)
    }
}

/// Appends a line of a word and a number.
fn push_count(alloc: Global, text: &mut Vec<u8>, word: &str, number: u128) -> Result<(), AllocError>
    ensures { OnOk result (text.new.items ≡ text.old.items ++ count_line word.now number) }
{
    let line = format!(in alloc; "{word} {number}\n")?;
    text.extend_from_slice(line.as_bytes())
}

/// The alphabet over which the candidates of made peaks are.
fn made_alphabet(alloc: Global, table: &Table) -> Result<Alphabet, Refusal>
    ensures alphabet { GivesInput (λ alphabet. alphabet) (alphabet_step table.now made_alphabet) result }
    ensures of_table { IfOk result (λ alphabet. All (IsEntryOf table.now) alphabet) }

    // The table has its elements.
    ensures known { IsOk result → HasItems table.now (element_counts 1 1 1 1) }
{
    Ok(read_alphabet(alloc, table, b"CHNO")?)
}

/// The adduct whose ions made peaks are of.
fn made_adduct(alloc: Global, table: &Table) -> Result<Adduct, Refusal>
    ensures adduct { GivesInput (λ adduct. adduct) (adduct_step table.now made_adduct) result }
    ensures added_known { IfOk result (λ adduct. HasItems table.now adduct.added) }
    ensures lost_known { IfOk result (λ adduct. HasItems table.now adduct.lost) }
{
    Ok(read_adduct(alloc, table, b"[M+H]+")?)
}

/// The peaks of the formulas that a number makes.
fn peaks_of_made(
    alloc: Global,
    table: &Table,
    adduct: &Adduct,
    number: u64,
    formulas: &[Formula],
) -> Result<Peaks, Refusal>
    requires made { formulas.now ≡ made_formulas number MADE_PEAKS }
    requires known { All (HasItems table.now) formulas.now }
    requires added_known { HasItems table.now adduct.now.added }
    requires lost_known { HasItems table.now adduct.now.lost }
    ensures peaks { GivesInput (λ peaks. peaks) (made_step table.now adduct.now number) result }
    ensures count { IfOk result (λ peaks. length peaks ≡ MADE_PEAKS) }
{
    Ok(made_peaks(alloc, table, adduct, formulas)?)
}
