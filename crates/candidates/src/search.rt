//! The search for the next candidate of a peak.
ghost use Rattle.std.specs.Prelude.{◌≡◌, ◌≤◌, ◌<◌, ◌+◌, ◌^◌, if◌then◌else◌, ℕ, true, false, nat_le, IfOk, is_some};
ghost use Rattle.std.specs.Prelude.{Some, None, length};
ghost use Rattle.std.specs.List.{list_all};
ghost use Rattle.formula_text.specs.Formulas.{IsFormula, atoms_of, formula_in, within_limits};
ghost use Rattle.mass_scaling.specs.Windows.{IsWindow};
ghost use Rattle.mass_scaling.specs.declared.windows.Window.{Window};
ghost use Rattle.decompose.specs.StepBounds.{HasNoScaledWindow, IsScaledWindowOf, most_steps};
ghost use Rattle.formula_text.specs.Limits.{max_atoms_of_item, max_items};
ghost use Rattle.candidates.specs.Grounds.{IsGround};
ghost use Rattle.candidates.specs.PeakFormulas.{counts_of};
ghost use Rattle.candidates.specs.Searches.{Admits, IsBounded, IsSearch, IsSure, Takes, Finds, is_formed, passes, todo};

use crate::grounds::Ground;
use adducts::has_ion;
use alphabet_text::Alphabet;
use decompose::{Counts, Decomps};
use formula_text::{MAX_ATOMS, MAX_ATOMS_OF_ITEM, MAX_ITEMS};
use mass_scaling::Window;
use outside_ports::Steps;
use std::alloc::{AllocError, Global};
use std::mem;
use std::sync::ledger::Ledger;
use written_items::Item;

/// Half a Da in 10^-12 Da. No atom weighs less.
const HALF_DALTON: u64 = 500_000_000_000;

/// Where the search for candidates stands.
#[derive(Drop)]
pub(crate) struct Search<'t> {
    /// The count lists that aren't taken yet.
    pub decomps: Decomps<'t>,
    /// The count list that was taken last.
    pub counts: Counts,
    /// Whether that is still to be tested or given.
    pub is_pending: bool,
    /// Room for a formula, which is used again.
    pub room: Vec<(Item, u32)>,
    /// Whether each count list that is taken is a candidate, and needs no test.
    pub is_sure: bool,
}

impl<'t> Search<'t> {
    /// Takes the next count list that is to be tested; false where none is left.
    fn take<L: Ledger>(&mut self, steps: &mut Steps<L>) -> bool
        requires { length self.old.counts ≡ length self.old.decomps.masses }
        ensures takes { Takes self.old self.new result }
        ensures steps { (scaled : Window) → IsScaledWindowOf self.old.decomps.masses self.old.decomps.window scaled
            → steps.new ≤ steps.old + most_steps self.old.decomps.masses scaled self.old.decomps.given
            (if result then Some self.new.counts else None) }
        ensures no_steps { HasNoScaledWindow self.old.decomps.masses self.old.decomps.window → steps.new ≡ steps.old }
        ensures pending { self.old.is_pending ≡ true → steps.new ≡ steps.old }
    {
        if self.is_pending {
            return true;
        }
        self.is_pending = self.decomps.next_into(&mut self.counts, steps);
        self.is_pending
    }

    /// Goes on to the next candidate, which is then the list taken last and still to be given; false where none is
    /// left. Takes no memory.
    pub fn find<L: Ledger>(&mut self, premises: &Ground, steps: &mut Steps<L>) -> bool
        requires search { IsSearch premises.now self.old }
        requires premises { IsGround premises.now }
        ensures finds { (mz : ℕ) → Admits premises.now mz self.old.decomps.window
            → Finds premises.now mz self.old self.new result }
        ensures steps { IsBounded self.old (if result then Some self.new.counts else None) steps.old steps.new }
    {
        'lists: while self.take(steps) {
            if self.is_sure {
                return true;
            }
            if is_formed(premises, self.counts.counts(), &mut self.room) {
                return true;
            }
            self.is_pending = false;
        }
        false
    }

    /// Gives the list taken last.
    pub fn give(&mut self, last: &mut Counts)
        ensures search { self.new ≡ record self.old { counts = last.old; is_pending = false } }
        ensures given { last.new ≡ self.old.counts }
    {
        self.is_pending = false;
        mem::swap(&mut self.counts, last);
    }
}

/// Whether no mass of a window leaves room for more atoms than a formula or its ion may have, nothing is lost, and there
/// are no rules. Then each count list of the window is a candidate.
pub(crate) fn is_sure(premises: &Ground, window: Window) -> bool
    requires { IsWindow window }
    ensures { result ≡ true → IsSure premises.now window }
{
    let adduct = premises.adduct();
    let added = adduct.added();
    if !premises.rules().rules().is_empty() {
        return false;
    }
    if !adduct.lost().items().is_empty() {
        return false;
    }
    let copied = u64::from(adduct.copies()) * (window.hi / HALF_DALTON);
    if copied + u64::from(added.atoms()) > u64::from(MAX_ATOMS_OF_ITEM) {
        return false;
    }
    premises.alphabet().items().len() + added.items().len() <= MAX_ITEMS
}

/// Whether the formula of a count list is one within the limits, has an ion and meets the rules. The formula is
/// written to `room`. Takes no memory.
fn is_formed(premises: &Ground, counts: &[u32], room: &mut [(Item, u32)]) -> bool
    requires counts { length counts.now ≡ length premises.now.alphabet }
    requires room { length room.old ≡ length premises.now.alphabet }
    ensures formed { result ≡ is_formed premises.now counts.now }
    ensures premises { IsGround premises.now }
{
    let items = premises.alphabet().items();
    let count = premises.hill().write(items, counts, room);
    passes(premises, &room[..count])
}

/// Whether a formula is one within the limits, has an ion and meets the rules. Takes no memory.
fn passes(premises: &Ground, formula: &[(Item, u32)]) -> bool
    requires few { length formula.now ≤ max_items }
    requires formula { is_some (formula_in (within_limits formula.now)) ≡ true → IsFormula formula.now }
    ensures { result ≡ passes premises.now formula.now }
{
    if !is_formula(formula) {
        return false;
    }
    if !has_ion(formula, premises.adduct()) {
        return false;
    }
    premises.rules().are_met(premises.table(), formula)
}

/// Whether items with their counts are a formula within the limits.
fn is_formula(items: &[(Item, u32)]) -> bool
    requires { length items.now ≤ max_items }
    ensures { result ≡ is_some (formula_in (within_limits items.now)) }
{
    if items.is_empty() {
        return false;
    }
    if !has_few_of_each(items) {
        return false;
    }
    atoms_in(items) <= MAX_ATOMS
}

/// Whether there are at most 10,000 atoms of each item.
fn has_few_of_each(items: &[(Item, u32)]) -> bool
    ensures { result ≡ list_all (λ p. nat_le p.1 max_atoms_of_item) items.now }
{
    items.iter().all(|(_, count)| *count <= MAX_ATOMS_OF_ITEM)
}

/// How many atoms there are.
pub(crate) fn atoms_in(items: &[(Item, u32)]) -> u32
    requires { atoms_of items.now < 2 ^ 32 }
    ensures { result ≡ atoms_of items.now }
{
    items.iter().map(|(_, count)| *count).sum()
}

/// The items of an alphabet, each with its count.
pub(crate) fn counts_of(
    alloc: Global,
    alphabet: &Alphabet,
    counts: &[u32],
) -> Result<Vec<(Item, u32)>, AllocError>
    ensures { IfOk result (λ v. v.items ≡ counts_of alphabet.now counts.now) }
{
    let items = alphabet.items();
    items
        .iter()
        .zip(counts)
        .map(|(item, count)| (*item, *count))
        .collect(alloc)
}
