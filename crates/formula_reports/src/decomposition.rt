//! `decompose`: the formulas of peaks.
ghost use Rattle.std.specs.Prelude.{◌≡◌, ◌≢◌, ◌↔◌, ◌<◌, ◌≤◌, [], ◌∷◌, ◌++◌, All, IfOk, IfSome, IsTrue, OnOk, Some};
ghost use Rattle.std.specs.Prelude.{length, map, nat_lt, slice_index};
ghost use Rattle.std.specs.List.{flat_map};
ghost use Rattle.mass_scaling.specs.Limits.{IsTolerance};
ghost use Rattle.mass_scaling.specs.declared.limits.TheConstants.{MAX_MZ};
ghost use Rattle.command_words.specs.Requests.{IsWithin};
ghost use Rattle.command_words.specs.declared.options.TheConstants.{MIN_MZ};
ghost use Rattle.candidates.specs.Enumeration.{counts_left, formulas_left};
ghost use Rattle.candidates.specs.Grounds.{IsGround};
ghost use Rattle.candidates.specs.Lines.{line_at};
ghost use Rattle.candidates.specs.Standings.{IsToken};
ghost use Rattle.candidates.specs.Tokens.{IsInAlphabetBox};
ghost use Rattle.command_io.specs.Parts.{IsPart, Puts, shelved};
ghost use Rattle.command_io.specs.Refusals.{GivesInput};
ghost use Rattle.formula_reports.specs.Answers.{decompose_names, decompose_query, page_step};
ghost use Rattle.formula_reports.specs.Claims.{PrintsPeak};
ghost use Rattle.formula_reports.specs.Inputs.{IsMz};
ghost use Rattle.formula_reports.specs.Reports.{asked_formulas, formulas_json, peak_in};
ghost use Rattle.formula_reports.specs.PageFormulas.{AreKept, asked_counts, counts_after, first_of, numbered, one_less};
ghost use Rattle.formula_reports.specs.PageFormulas.{within_limit};
ghost use Rattle.formula_reports.specs.Reports.{formulas_report, peak_lines};
ghost use Rattle.formula_reports.specs.Steps.{after_step, in_box, token_step};

use crate::peaks::peaks_of;
use candidates::{Candidates, CountLists, Ground, ResumeFault, item_room, push_line};
use command_io::{InputFault, Refusal, ground_of, put_line, put_text, table_of};
use command_words::{MAX_LIMIT, Word};
use formula_text::{Formula, read_formula};
use mass_scaling::Tolerance;
use outside_ports::{Shelf, Sink, Steps};
use report_lines::{push_decompose_head, push_peak_line};
use report_text::{Report, json_text};
use std::alloc::{AllocError, Global};
use std::marker::{Brand, Model};
use std::sync::ledger::{Blank, Ledger};

/// The most candidates of a peak.
pub const MAX_CANDIDATES: u64 = 1_048_576;

// A page is never longer than that, so a request for one is refused at no peak.
const _: () = prove!(MAX_LIMIT == MAX_CANDIDATES);

/// The most counts that are kept of formulas, to be printed without another search: 16 MiB of them.
const MAX_KEPT_COUNTS: usize = 8_388_608;

/// An m/z with which a token is tried: whether it is in the box rests on the alphabet alone.
const ANY_MZ: u64 = 1;

/// The options of `decompose`, as its request has them.
#[derive(Drop)]
pub struct DecomposeOptions {
    pub table: Word,
    pub mass: Option<u64>,
    pub peaks: Option<Word>,
    pub tolerance: Tolerance,
    pub alphabet: Word,
    pub adduct: Word,
    pub rules: Word,
    pub limit: Option<u64>,
    pub after: Option<Word>,
}

/// Peaks with the premises on which their formulas are asked, and the page of them that is. It is seen as that query.
#[derive(Drop)]
pub struct Decomposition {
    premises: Ground,
    mzs: Vec<u64>,
    after: Option<Formula>,
    limit: Option<u64>,
    /// The formulas of the first peaks, of those whose formulas are kept.
    kept: Vec<Option<CountLists>>,
}

impl Model for Decomposition {
    ghost use Rattle.std.specs.Prelude.{All, IfSome};
    ghost use Rattle.candidates.specs.Grounds.{IsGround};
    ghost use Rattle.candidates.specs.Tokens.{IsInAlphabetBox};
    ghost use Rattle.formula_reports.specs.Inputs.{IsMz};
    ghost use Rattle.formula_reports.specs.PageFormulas.{AreKept};
    ghost use Rattle.formula_reports.specs.Queries.{FormulaQuery};

    ghost Value = { FormulaQuery };

    ghost view = { λ d. record { premises = d.premises; mzs = d.mzs.items; after = d.after; limit = d.limit } };

    ghost invariant = { λ d. All IsMz d.mzs.items × IfSome d.after (IsInAlphabetBox d.premises.alphabet)
        × IsGround d.premises
        × AreKept (record { premises = d.premises; mzs = d.mzs.items; after = d.after; limit = d.limit }) d.kept.items };
}

/// What was found of the number of formulas of a peak.
#[derive(Drop)]
struct PeakCount {
    /// Whether there are more than 1,048,576.
    is_crowded: bool,
    /// The formulas, where there was room for them.
    lists: Option<CountLists>,
}

impl Decomposition {
    /// Reads what a decomposition is over. Where no number of formulas is asked for, more than 1,048,576 of a peak are
    /// refused.
    pub fn read<H: Shelf>(
        alloc: Global,
        options: &DecomposeOptions,
        shelf: &mut H,
    ) -> Result<Decomposition, Refusal>
        requires mass { IsWithin MIN_MZ MAX_MZ options.now.mass }
        requires tolerance { IsTolerance options.now.tolerance }
        ensures { IsPart (λ d. d) (decompose_names options.now) (decompose_query options.now)
            (shelved (H.held shelf.old) (H.asked shelf.old) (H.faults shelf.old))
            (shelved (H.held shelf.new) (H.asked shelf.new) (H.faults shelf.new)) result }
    {
        let table = table_of(alloc, &options.table, shelf)?;
        let mzs = peaks_of(alloc, options.mass, &options.peaks, shelf)?;
        let premises = ground_of(
            alloc,
            table,
            options.tolerance,
            &options.alphabet,
            &options.adduct,
            &options.rules,
            shelf,
        )?;
        Decomposition::of_page(alloc, premises, mzs, options.limit, &options.after)
    }

    /// The decomposition of peaks on premises.
    fn of_page(
        alloc: Global,
        premises: Ground,
        mzs: Vec<u64>,
        limit: Option<u64>,
        after: &Option<Word>,
    ) -> Result<Decomposition, Refusal>
        requires mzs { All IsMz mzs.items }
        requires premises { IsGround premises }
        ensures { GivesInput (λ d. d) (page_step premises mzs.items limit after.now) result }
    {
        let after = token_of(alloc, &premises, after)?;
        let mut decomposition = Decomposition {
            premises,
            mzs,
            after,
            limit,
            kept: Vec::new(alloc),
        };
        let kept = decomposition.check_limit(alloc)?;
        decomposition.kept = kept;
        Ok(decomposition)
    }

    /// Refuses the first peak that has more than 1,048,576 formulas behind the token, unless so many are asked for. Gives
    /// the formulas of the peaks, of those for which there is room.
    fn check_limit(&self, alloc: Global) -> Result<Vec<Option<CountLists>>, Refusal>
        ensures limit { GivesInput (λ kept. self.now) (within_limit self.now) result }
        ensures kept { IfOk result (λ kept. AreKept self.now kept.items) }
    {
        let mut kept = Vec::new(alloc);
        if self.limit.is_some() {
            return Ok(kept);
        }
        let mut room = most_kept(&self.premises);
        for (i, mz) in self.mzs.iter().enumerate() {
            let count = self.count(alloc, *mz, room)?;
            if count.is_crowded {
                let peak = i as u64 + 1;
                return Err(Refusal::Input(InputFault::CandidateLimit { peak }));
            }
            room = room_beside(room, &count.lists);
            push_lists(&mut kept, count.lists)?;
        }
        Ok(kept)
    }

    /// Counts the formulas of a peak behind the token, and keeps them where there are at most `room`.
    fn count(&self, alloc: Global, mz: u64, room: usize) -> Result<PeakCount, AllocError>
        requires mz { IsMz mz }
        requires room { room < MAX_CANDIDATES }
        ensures crowded { IfOk result (λ count.
            count.is_crowded ≡ nat_lt MAX_CANDIDATES (length (counts_after self.now.premises self.now.after mz))) }
        ensures lists { IfOk result (λ count.
            IfSome count.lists (λ lists. lists ≡ counts_after self.now.premises self.now.after mz)) }
    {
        let mut candidates = self.candidates(alloc, mz)?;
        count_left::<Brand>(&mut candidates, room, Blank::new(1))
    }

    /// The formulas of the page of a peak, where they are kept.
    fn kept(&self, place: usize) -> Option<&CountLists>
        ensures { IfSome result (λ lists. lists.now ≡ asked_counts self.now (slice_index self.now.mzs place)) }
    {
        match self.kept.get(place) {
            Some(Some(lists)) => Some(lists),
            _ => None,
        }
    }

    /// The formulas of a peak behind the token.
    fn candidates(&self, alloc: Global, mz: u64) -> Result<Candidates<'_>, AllocError>
        requires { IsMz mz }
        ensures left { IfOk result (λ c. counts_left c ≡ counts_after self.now.premises self.now.after mz) }
        ensures premises { IfOk result (λ c. c.premises ≡ self.now.premises) }
        ensures peak { IfOk result (λ c. c.mz ≡ mz) }
    {
        match &self.after {
            None => Candidates::start(alloc, &self.premises, mz),
            Some(after) => match Candidates::resume(alloc, &self.premises, mz, after) {
                Ok(candidates) => Ok(candidates),
                Err(ResumeFault::Memory) => Err(AllocError),
                Err(ResumeFault::NotInBox) => unreachable!(),
            },
        }
    }

    /// Puts the report, line by line.
    pub fn write<O: Sink>(&self, alloc: Global, out: &mut O) -> Result<(), Refusal>
        ensures puts { Puts (formulas_report self.now)
            (O.written out.old) (O.written out.new) (O.faults out.old) (O.faults out.new) result }
        ensures holds { All (PrintsPeak self.now) self.now.mzs }
    {
        let mut line = Vec::new(alloc);
        let mzs = self.mzs.as_slice();
        push_decompose_head(&mut line, mzs.len() as u64)?;
        put_text(&line, out)?;
        self.write_peaks(alloc, &mut line, out)
    }

    /// Puts the report as one line of JSON.
    pub fn write_json<O: Sink>(&self, alloc: Global, out: &mut O) -> Result<(), Refusal>
        ensures puts { Puts (formulas_json self.now)
            (O.written out.old) (O.written out.new) (O.faults out.old) (O.faults out.new) result }
        ensures holds { All (PrintsPeak self.now) self.now.mzs }
    {
        // What is claimed rests on the premises.
        let _ = &self.premises;
        let report = self.entries(alloc)?;
        put_line(&json_text(alloc, &report)?, out)
    }

    /// The entries of the report.
    fn entries(&self, alloc: Global) -> Result<Report, AllocError>
        ensures { IfOk result (λ report. report ≡ Report.Decompose (map (peak_in self.now) (numbered self.now.mzs))) }
    {
        let table = self.premises.table();
        let adduct = self.premises.adduct();
        let mut report = Report::decompose(alloc);
        for mz in &self.mzs {
            let formulas = self.formulas(alloc, *mz)?;
            report.add_peak(alloc, table, adduct, *mz, &formulas)?;
        }
        Ok(report)
    }

    /// The formulas of a peak's page.
    fn formulas(&self, alloc: Global, mz: u64) -> Result<Vec<Formula>, AllocError>
        requires { IsMz mz }
        ensures { IfOk result (λ formulas. formulas.items ≡ asked_formulas self.now mz) }
    {
        let mut candidates = self.candidates(alloc, mz)?;
        formulas_of::<Brand>(alloc, &mut candidates, self.limit, Blank::new(1))
    }

    /// Puts the lines of the peaks. `line` is room that is used again.
    fn write_peaks<O: Sink>(
        &self,
        alloc: Global,
        line: &mut Vec<u8>,
        out: &mut O,
    ) -> Result<(), Refusal>
        ensures { Puts (flat_map (peak_lines self.now) (numbered self.now.mzs))
            (O.written out.old) (O.written out.new) (O.faults out.old) (O.faults out.new) result }
    {
        for (i, mz) in self.mzs.iter().enumerate() {
            self.write_peak(alloc, i as u64 + 1, *mz, self.kept(i), line, out)?;
        }
        Ok(())
    }

    /// Puts the lines of a peak of this number, whose formulas are searched for unless they are kept. `line` is room that
    /// is used again.
    fn write_peak<O: Sink>(
        &self,
        alloc: Global,
        number: u64,
        mz: u64,
        kept: Option<&CountLists>,
        line: &mut Vec<u8>,
        out: &mut O,
    ) -> Result<(), Refusal>
        requires mz { IsMz mz }
        requires kept { IfSome kept (λ lists. lists.now ≡ asked_counts self.now mz) }
        ensures { Puts (peak_lines self.now (number, mz))
            (O.written out.old) (O.written out.new) (O.faults out.old) (O.faults out.new) result }
    {
        line.clear();
        push_peak_line(line, number, mz)?;
        put_text(line, out)?;
        if let Some(lists) = kept {
            return put_kept(&self.premises, mz, lists, line, out);
        }
        let mut candidates = self.candidates(alloc, mz)?;
        put_formulas::<Brand, O>(&mut candidates, self.limit, line, out, Blank::new(1))
    }
}

/// The formulas that are left, or the first so many. The steps of the search are counted in the ledger that `blank` opens.
fn formulas_of<L: Ledger>(
    alloc: Global,
    candidates: &mut Candidates<'_>,
    limit: Option<u64>,
    blank: Blank,
) -> Result<Vec<Formula>, AllocError>
    requires name { blank.name ≡ L.name }
    requires parts { blank.parts ≡ L.parts }
    requires some { 0 < blank.parts }
    ensures { IfOk result (λ formulas. formulas.items ≡ first_of limit (formulas_left candidates.old)) }
{
    let mut steps = Steps::<L>::new(blank);
    let mut formulas = Vec::new(alloc);
    let mut most = limit;
    'formulas: while allows_one(most) {
        let Some(formula) = candidates.next(&mut steps)? else {
            return Ok(formulas);
        };
        formulas.push(formula)?;
        most = one_less(most);
    }
    Ok(formulas)
}

/// The token of a text, where there is one.
fn token_of(
    alloc: Global,
    premises: &Ground,
    after: &Option<Word>,
) -> Result<Option<Formula>, Refusal>
    ensures token { GivesInput (λ token. token) (token_step premises.now after.now) result }
    ensures in_box { IfOk result (λ token. IfSome token (IsInAlphabetBox premises.now.alphabet)) }
{
    match after {
        None => Ok(None),
        Some(text) => {
            let formula = after_formula(alloc, premises, text)?;
            Ok(Some(in_box(alloc, premises, formula)?))
        }
    }
}

/// The formula of a text after which a list is to begin.
fn after_formula(alloc: Global, premises: &Ground, text: &Word) -> Result<Formula, Refusal>
    ensures { GivesInput (λ formula. formula) (after_step premises.now text.now) result }
{
    match read_formula(alloc, premises.table(), text.text().as_bytes()) {
        Ok(formula) => Ok(formula),
        Err(fault) => Err(Refusal::of_after(fault)),
    }
}

/// A formula whose counts are in the box of the alphabet.
fn in_box(alloc: Global, premises: &Ground, formula: Formula) -> Result<Formula, Refusal>
    ensures formula { GivesInput (λ formula. formula) (in_box premises.now.alphabet formula) result }
    ensures in_box { IfOk result (IsInAlphabetBox premises.now.alphabet) }
{
    match Candidates::resume(alloc, premises, ANY_MZ, &formula) {
        Ok(_) => Ok(formula),
        Err(ResumeFault::NotInBox) => Err(Refusal::Input(InputFault::NotInBox)),
        Err(ResumeFault::Memory) => Err(Refusal::Memory),
    }
}

/// How many formulas of an alphabet are kept at most, fewer than those that a peak may have.
fn most_kept(premises: &Ground) -> usize
    ensures { result < MAX_CANDIDATES }
{
    let most = MAX_KEPT_COUNTS / premises.alphabet().items().len();
    most.min(MAX_CANDIDATES as usize - 1)
}

/// The room that is left beside these lists, if there are any.
fn room_beside(room: usize, lists: &Option<CountLists>) -> usize
    ensures { result ≤ room }
{
    match lists {
        Some(lists) => room.saturating_sub(lists.len()),
        None => room,
    }
}

/// Adds the lists of one more peak, if they are kept.
fn push_lists(
    kept: &mut Vec<Option<CountLists>>,
    lists: Option<CountLists>,
) -> Result<(), AllocError>
    ensures { OnOk result (kept.new.items ≡ kept.old.items ++ lists ∷ []) }
{
    kept.push(lists)?;
    Ok(())
}

/// Counts the formulas that are left, and keeps them where there are at most `room`. The steps of the search are counted in
/// the ledger that `blank` opens.
fn count_left<L: Ledger>(
    candidates: &mut Candidates<'_>,
    room: usize,
    blank: Blank,
) -> Result<PeakCount, AllocError>
    requires room { room < MAX_CANDIDATES }
    requires name { blank.name ≡ L.name }
    requires parts { blank.parts ≡ L.parts }
    requires some { 0 < blank.parts }
    ensures crowded { IfOk result (λ count.
        count.is_crowded ≡ nat_lt MAX_CANDIDATES (length (counts_left candidates.old))) }
    ensures lists { IfOk result (λ count. IfSome count.lists (λ lists. lists ≡ counts_left candidates.old)) }
{
    let mut steps = Steps::<L>::new(blank);
    let lists = candidates.keep(room, &mut steps)?;
    if lists.is_some() {
        return Ok(PeakCount {
            is_crowded: false,
            lists,
        });
    }
    let others = MAX_CANDIDATES - 1 - room as u64;
    let is_crowded = candidates.has_more_than(others, &mut steps)?;
    Ok(PeakCount {
        is_crowded,
        lists: None,
    })
}

/// Puts the lines of formulas that are kept. `line` is room that is used again.
fn put_kept<O: Sink>(
    premises: &Ground,
    mz: u64,
    lists: &CountLists,
    line: &mut Vec<u8>,
    out: &mut O,
) -> Result<(), Refusal>
    requires tokens { All (IsToken premises.now) lists.now }
    ensures { Puts (flat_map (line_at premises.now mz) lists.now)
        (O.written out.old) (O.written out.new) (O.faults out.old) (O.faults out.new) result }
{
    let alloc = *line.allocator();
    let mut counts = vec![in alloc; 0; lists.width()]?;
    let mut items = item_room(premises);
    for place in 0..lists.len() {
        line.clear();
        lists.write_list(place, &mut counts);
        push_line(premises, mz, &counts, &mut items, line)?;
        put_line(line, out)?;
    }
    Ok(())
}

/// Puts the lines of the formulas that are left, or of the first so many, each when it is found. `line` is room that is
/// used again. The steps of the search are counted in the ledger that `blank` opens.
fn put_formulas<L: Ledger, O: Sink>(
    candidates: &mut Candidates<'_>,
    limit: Option<u64>,
    line: &mut Vec<u8>,
    out: &mut O,
    blank: Blank,
) -> Result<(), Refusal>
    requires name { blank.name ≡ L.name }
    requires parts { blank.parts ≡ L.parts }
    requires some { 0 < blank.parts }
    ensures { Puts
        (flat_map (line_at candidates.old.premises candidates.old.mz) (first_of limit (counts_left candidates.old)))
        (O.written out.old) (O.written out.new) (O.faults out.old) (O.faults out.new) result }
{
    let mut steps = Steps::<L>::new(blank);
    let mut most = limit;
    'formulas: while allows_one(most) && candidates.advance(&mut steps) {
        line.clear();
        candidates.push_line(line)?;
        put_line(line, out)?;
        most = one_less(most);
    }
    Ok(())
}

/// Whether so many, or all, are at least one.
fn allows_one(most: Option<u64>) -> bool
    ensures { IsTrue result ↔ (most ≢ Some 0) }
{
    match most {
        Some(0) => false,
        _ => true,
    }
}

/// One less than so many, and all but one of all.
fn one_less(most: Option<u64>) -> Option<u64>
    requires { most ≢ Some 0 }
    ensures { result ≡ one_less most }
{
    match most {
        Some(most) => Some(most - 1),
        None => None,
    }
}
