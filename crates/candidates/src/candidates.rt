//! The enumeration of the candidates of a peak.
ghost use Rattle.std.specs.Prelude.{◌≡◌, ◌≤◌, ◌<◌, ◌+◌, ◌↔◌, ℕ, List, if◌then◌else◌, [], ◌∷◌, ◌++◌, nat_lt};
ghost use Rattle.std.specs.Prelude.{All, IfOk, IfSome, IsSomeAnd, OnOk, OnErr, IsErrOf, IsTrue, not, Some, None, length, map, option_map};
ghost use Rattle.std.specs.Bool.{OnTrue, OnFalse};
ghost use Rattle.mass_scaling.specs.declared.limits.TheConstants.{MAX_MZ};
ghost use Rattle.mass_scaling.specs.Windows.{IsWindow};
ghost use Rattle.mass_scaling.specs.declared.windows.Window.{Window};
ghost use Rattle.candidates.specs.PeakFormulas.{formulas_of_peak, formula_at, counts_in, masses_of};
ghost use Rattle.candidates.specs.Enumeration.{counts_left, formulas_left};
ghost use Rattle.candidates.specs.StepBounds.{HasNoScaledPeakWindow, IsScaledPeakWindow, counts_given};
ghost use Rattle.candidates.specs.StepBounds.{most_candidate_steps};
ghost use Rattle.candidates.specs.Lines.{given_line};
ghost use Rattle.decompose.specs.Enumeration.{lists_after};
ghost use Rattle.formula_text.specs.Formulas.{IsFormula, count_in};
ghost use Rattle.candidates.specs.Searches.{Covers, Admits};
ghost use Rattle.std.specs.List.{list_any};
ghost use Rattle.written_items.specs.Items.{item_eq};
ghost use Rattle.candidates.specs.declared.count_lists.TheConstants.{MAX_KEPT_COUNT};
ghost use Rattle.candidates.specs.Tokens.{IsInAlphabetBox, has_only, fits};
ghost use Rattle.candidates.specs.Standings.{IsSearched, IsToken};

use crate::count_lists::{CountLists, push_counts};
use crate::grounds::Ground;
use crate::line::{item_room, push_line};
use crate::search::{Search, counts_of, is_sure};
use alphabet_text::Alphabet;
use decompose::{Counts, Decomps, Limit, ResumeFault, Window};
use formula_text::Formula;
use mass_scaling::window_of;
use outside_ports::Steps;
use std::alloc::{AllocError, Global};
use std::marker::Model;
use std::sync::ledger::Ledger;
use written_items::Item;

/// Enumerates the candidates of a peak in lexicographic order of their counts, small counts first. Contracts see its
/// ground, its m/z and the count list up to which it has come.
#[derive(Drop)]
pub struct Candidates<'t> {
    alloc: Global,
    premises: &'t Ground,
    mz: u64,
    search: Search<'t>,
    /// The count list given last, once one was given.
    last: Counts,
    has_given: bool,
}

impl<'t> Model for Candidates<'t> {
    ghost use Rattle.std.specs.Prelude.{◌≡◌, length};
    ghost use Rattle.candidates.specs.Enumeration.{CandidateEnumeration};
    ghost use Rattle.candidates.specs.Standings.{IsStanding, given_if};

    ghost Value = { CandidateEnumeration };

    ghost view = { λ c. record { premises = c.premises.now; mz = c.mz; given = given_if c.has_given c.last } };

    ghost invariant = { λ c. (length c.last ≡ length c.premises.now.alphabet)
        × IsStanding c.premises.now c.mz c.search (given_if c.has_given c.last) };
}

/// The window of a peak where no mass is within tolerance: no candidate has this mass.
const NO_WINDOW: Window = Window { lo: 1, hi: 1 };

/// A window in which each candidate of a peak has its mass.
fn peak_window(premises: &Ground, mz: u64) -> Window
    requires some_mz { 1 ≤ mz }
    requires few_mz { mz ≤ MAX_MZ }
    ensures window { IsWindow result }
    ensures covers { Covers premises.now mz result }
    ensures admits { Admits premises.now mz result }
    ensures searched { IsSearched premises.now mz result }
{
    match window_of(mz, premises.tolerance(), premises.charged()) {
        Some(window) => window,
        None => NO_WINDOW,
    }
}

impl<'t> Candidates<'t> {
    /// The candidates of a peak from their start. The m/z is above 0 and at most 20,000 Da, in 10^-12 Da.
    pub fn start(alloc: Global, premises: &'t Ground, mz: u64) -> Result<Candidates<'t>, AllocError>
        requires some_mz { 1 ≤ mz }
        requires few_mz { mz ≤ MAX_MZ }
        ensures start { IfOk result (λ c. c ≡ record { premises = premises.now; mz = mz; given = None }) }
        ensures all_left { IfOk result (λ c. counts_left c ≡ formulas_of_peak premises.now mz) }
    {
        let alphabet = premises.alphabet();
        let window = peak_window(premises, mz);
        let size = alphabet.items().len();
        let counts = Counts::zero(alloc, size)?;
        let last = Counts::zero(alloc, size)?;
        let room = empty_room(alloc, alphabet)?;
        let decomps = Decomps::start(alloc, premises.tables(), alphabet.limits(), window)?;
        let search = Search {
            decomps,
            counts,
            is_pending: false,
            room,
            is_sure: is_sure(premises, window),
        };
        Ok(Candidates {
            alloc,
            premises,
            mz,
            search,
            last,
            has_given: false,
        })
    }

    /// The candidates of a peak whose counts come after those of a formula, which need not be one of them.
    ///
    /// `NotInBox` exactly where the formula has an item that isn't of the alphabet, or a count, also one of 0, that is
    /// outside its limits.
    pub fn resume(
        alloc: Global,
        premises: &'t Ground,
        mz: u64,
        after: &Formula,
    ) -> Result<Candidates<'t>, ResumeFault>
        requires some_mz { 1 ≤ mz }
        requires few_mz { mz ≤ MAX_MZ }
        ensures resumed { IfOk result (λ c. c ≡ record {
          premises = premises.now;
          mz = mz;
          given = Some (counts_in premises.now.alphabet after.now);
        }) }
        ensures token { IfOk result (λ c.
            option_map (formula_at premises.now.alphabet) c.given ≡ Some after.now) }
        ensures rest_left { IfOk result (λ c. counts_left c
            ≡ lists_after (formulas_of_peak premises.now mz) (counts_in premises.now.alphabet after.now)) }
        ensures in_box { OnOk result (IsInAlphabetBox premises.now.alphabet after.now) }
        ensures not_in_box { IsErrOf result ResumeFault.NotInBox
            ↔ (¬ IsInAlphabetBox premises.now.alphabet after.now) }
    {
        let alphabet = premises.alphabet();
        if !is_in_box(alphabet, after) {
            return Err(ResumeFault::NotInBox);
        }
        let last = counts_in(alloc, alphabet.items(), after)?;
        Ok(Candidates::after(alloc, premises, mz, last)?)
    }

    /// The candidates of a peak whose counts come after these.
    fn after(
        alloc: Global,
        premises: &'t Ground,
        mz: u64,
        last: Counts,
    ) -> Result<Candidates<'t>, AllocError>
        requires some_mz { 1 ≤ mz }
        requires few_mz { mz ≤ MAX_MZ }
        requires token { IsToken premises.now last }
        ensures { IfOk result (λ c. c ≡ record { premises = premises.now; mz = mz; given = Some last }) }
    {
        let alphabet = premises.alphabet();
        let window = peak_window(premises, mz);
        let counts = Counts::zero(alloc, alphabet.items().len())?;
        let room = empty_room(alloc, alphabet)?;
        let limits = alphabet.limits();
        let decomps = match Decomps::resume(alloc, premises.tables(), limits, window, &last) {
            Ok(decomps) => decomps,
            Err(ResumeFault::Memory) => return Err(AllocError),
            Err(ResumeFault::NotInBox) => unreachable!(),
        };
        let search = Search {
            decomps,
            counts,
            is_pending: false,
            room,
            is_sure: is_sure(premises, window),
        };
        Ok(Candidates {
            alloc,
            premises,
            mz,
            search,
            last,
            has_given: true,
        })
    }

    /// Goes on to the next candidate: false exactly where none is left, and nothing changes then. Takes no memory.
    pub fn advance<L: Ledger>(&mut self, steps: &mut Steps<L>) -> bool
        ensures next { OnTrue result (IsSomeAnd self.new.given (λ counts.
            counts_left self.old ≡ counts ∷ counts_left self.new)) }
        ensures end { IsTrue (not result) ↔ (counts_left self.old ≡ []) }
        ensures unchanged { OnFalse result (self.new ≡ self.old) }
        ensures peak { self.new.mz ≡ self.old.mz }
        ensures premises { self.new.premises ≡ self.old.premises }
        ensures steps { (scaled : Window) → IsScaledPeakWindow self.old scaled → steps.new ≤ steps.old
            + most_candidate_steps (masses_of self.old.premises.alphabet) scaled self.old.given
            (if result then self.new.given else None) }
        ensures no_steps { HasNoScaledPeakWindow self.old → steps.new ≡ steps.old }
    {
        if !self.search.find(self.premises, steps) {
            return false;
        }
        self.search.give(&mut self.last);
        self.has_given = true;
        true
    }

    /// The next candidate, none exactly at the end. Without memory for it the same one is the next in a later call.
    pub fn next<L: Ledger>(&mut self, steps: &mut Steps<L>) -> Result<Option<Formula>, AllocError>
        ensures next { IfOk result (λ o. IfSome o (λ f.
            formulas_left self.old ≡ f ∷ formulas_left self.new)) }
        ensures given { IfOk result (λ o. IfSome o (λ f.
            self.new.given ≡ Some (counts_in self.old.premises.alphabet f))) }
        ensures end { IfOk result (λ o. (o ≡ None) ↔ (counts_left self.old ≡ [])) }
        ensures at_end { IfOk result (λ o. o ≡ None → self.new ≡ self.old) }
        ensures refused { OnErr result (self.new ≡ self.old) }
        ensures peak { IfOk result (λ o. self.new.mz ≡ self.old.mz) }
        ensures premises { IfOk result (λ o. self.new.premises ≡ self.old.premises) }
        ensures steps { (scaled : Window) → IsScaledPeakWindow self.old scaled → steps.new ≤ steps.old
            + most_candidate_steps (masses_of self.old.premises.alphabet) scaled self.old.given
            (counts_given self.old.premises.alphabet result) }
        ensures no_steps { HasNoScaledPeakWindow self.old → steps.new ≡ steps.old }
    {
        if !self.search.find(self.premises, steps) {
            return Ok(None);
        }
        let counts = self.search.counts.counts();
        let parts = counts_of(self.alloc, self.premises.alphabet(), counts)?;
        let found = Formula::of(self.alloc, &parts)?;
        self.search.give(&mut self.last);
        self.has_given = true;
        Ok(found)
    }

    /// Whether more candidates are left than a number. The enumeration stays where it is.
    pub fn has_more_than<L: Ledger>(
        &mut self,
        limit: u64,
        steps: &mut Steps<L>,
    ) -> Result<bool, AllocError>
        ensures more { IfOk result (λ more. more ≡ nat_lt limit (length (counts_left self.old))) }
        ensures unchanged { self.new ≡ self.old }
    {
        let mut ahead = self.again()?;
        for _ in 0..limit {
            if !ahead.advance(steps) {
                return Ok(false);
            }
        }
        Ok(ahead.advance(steps))
    }

    /// Goes on to the end and gives all candidates that are left, by their counts, where these are at most `most`. None
    /// where more are left, and it has gone on over `most` and one of them then. Without memory for them it has gone on
    /// over some.
    pub fn keep<L: Ledger>(
        &mut self,
        most: usize,
        steps: &mut Steps<L>,
    ) -> Result<Option<CountLists>, AllocError>
        ensures all { IfOk result (λ o. IfSome o (λ lists. lists ≡ counts_left self.old)) }
        ensures at_end { IfOk result (λ o. IfSome o (λ lists. counts_left self.new ≡ [])) }
        ensures none { IfOk result (λ o. (o ≡ None) ↔ (most < length (counts_left self.old))) }
        ensures more { IfOk result (λ o. o ≡ None →
            length (counts_left self.old) ≡ most + 1 + length (counts_left self.new)) }
        ensures goes_on { (passed : List (List ℕ)) × (counts_left self.old ≡ passed ++ counts_left self.new) }
        ensures peak { self.new.mz ≡ self.old.mz }
        ensures premises { self.new.premises ≡ self.old.premises }
    {
        let width = self.counts_given().len();
        let mut counts = Vec::new(self.alloc);
        for many in 0..most {
            if !self.advance(steps) {
                return Ok(Some(CountLists {
                    width,
                    many,
                    counts,
                }));
            }
            push_counts(&mut counts, self.counts_given())?;
        }
        if self.advance(steps) {
            return Ok(None);
        }
        Ok(Some(CountLists {
            width,
            many: most,
            counts,
        }))
    }

    /// The counts of the candidate given last, where one was given.
    fn counts_given(&self) -> &[u32]
        ensures given { IfSome self.now.given (λ counts. result.now ≡ counts) }
        ensures few { IfSome self.now.given (All (λ count. count ≤ MAX_KEPT_COUNT)) }
        ensures length { length result.now ≡ length self.now.premises.alphabet }
    {
        self.last.counts()
    }

    /// Another enumeration that stands where this one does.
    fn again(&self) -> Result<Candidates<'t>, AllocError>
        ensures { IfOk result (λ c. c ≡ self.now) }
    {
        if !self.has_given {
            return Candidates::start(self.alloc, self.premises, self.mz);
        }
        let last = Counts::of(self.alloc, self.last.counts())?;
        Candidates::after(self.alloc, self.premises, self.mz, last)
    }

    /// Appends the report's line of the candidate given last, nothing where none was given. Without room for it the
    /// report stays as it was.
    pub fn push_line(&self, report: &mut Vec<u8>) -> Result<(), AllocError>
        ensures line { OnOk result (report.new.items ≡ report.old.items ++ given_line self.now) }
        ensures refused { OnErr result (report.new.items ≡ report.old.items) }
    {
        if !self.has_given {
            return Ok(());
        }
        let mut room = item_room(self.premises);
        push_line(
            self.premises,
            self.mz,
            self.last.counts(),
            &mut room,
            report,
        )
    }

    /// The formula of the count list given last, with which `resume` goes on. None where none was given since `start`.
    pub fn token(&self) -> Result<Option<Formula>, AllocError>
        ensures { IfOk result (λ token.
            token ≡ option_map (formula_at self.now.premises.alphabet) self.now.given) }
    {
        if !self.has_given {
            return Ok(None);
        }
        let parts = counts_of(self.alloc, self.premises.alphabet(), self.last.counts())?;
        Formula::of(self.alloc, &parts)
    }
}

/// Room for a formula of an alphabet.
fn empty_room(alloc: Global, alphabet: &Alphabet) -> Result<Vec<(Item, u32)>, AllocError>
    ensures { IfOk result (λ room. length room.items ≡ length alphabet.now) }
{
    alphabet
        .items()
        .iter()
        .map(|item| (*item, 0))
        .collect(alloc)
}

/// The counts that a formula has of items.
fn counts_in(alloc: Global, items: &[Item], formula: &Formula) -> Result<Counts, AllocError>
    ensures { IfOk result (λ counts. counts ≡ map (count_in formula.now) items.now) }
{
    let counts: Vec<u32> = items
        .iter()
        .map(|item| formula.count(*item))
        .collect(alloc)?;
    Counts::of(alloc, &counts)
}

/// Whether each item of a formula is one of the alphabet and each count within its limits. Takes no memory.
fn is_in_box(alphabet: &Alphabet, formula: &Formula) -> bool
    ensures in_box { IsTrue result ↔ IsInAlphabetBox alphabet.now formula.now }
    ensures formula { IsFormula formula.now }
{
    let items = alphabet.items();
    has_only(items, formula) && fits(items, alphabet.limits(), formula)
}

/// Whether each item of a formula is one of these.
fn has_only(items: &[Item], formula: &Formula) -> bool
    ensures only { result ≡ has_only items.now formula.now }
    ensures formula { IsFormula formula.now }
{
    let parts = formula.items();
    parts.iter().all(|(item, _)| stands_in(items, item))
}

/// Whether an item is one of these.
fn stands_in(items: &[Item], item: &Item) -> bool
    ensures { result ≡ list_any (λ other. item_eq other item.now) items.now }
{
    items.iter().any(|other| other == item)
}

/// Whether the counts that a formula has of items are within their limits.
fn fits(items: &[Item], limits: &[Limit], formula: &Formula) -> bool
    ensures { result ≡ fits items.now limits.now formula.now }
{
    items.iter().zip(limits).all(|(item, limit)| {
        limit.low <= formula.count(*item) && formula.count(*item) <= limit.high
    })
}
