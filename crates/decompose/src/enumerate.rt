//! The enumeration of the count lists of a window.
ghost use Rattle.std.specs.Prelude.{◌≡◌, ◌+◌, ◌<◌, ◌≤◌, ◌↔◌, if◌then◌else◌, ℕ, List, [], ◌∷◌, length, All, AllPairs};
ghost use Rattle.std.specs.Prelude.{Contains, not, IsTrue};
ghost use Rattle.std.specs.Prelude.{IfOk, OnOk, IsErrOf, IsSomeAnd, Some, None, MatchBool};
ghost use Rattle.std.specs.Bool.{OnTrue, OnFalse};
ghost use Rattle.std.specs.List.{find};
ghost use Rattle.mass_scaling.specs.Masses.{mass_of};
ghost use Rattle.decompose.specs.CountLists.{IsLimit, IsInBox, box_of, comes_after};
ghost use Rattle.decompose.specs.Enumeration.{vectors, lists_after, left, is_within};
ghost use Rattle.decompose.specs.Search.{is_left};
ghost use Rattle.decompose.specs.StepBounds.{HasNoScaledWindow, IsScaledWindowOf, most_steps};
ghost use Rattle.mass_scaling.specs.Windows.{IsWindow};
ghost use Rattle.mass_scaling.specs.declared.windows.Window.{Window};

use crate::count_list::Counts;
use crate::faults::ResumeFault;
use crate::levels::{Level, Symbol, counts_of, levels_of, symbols_of, write_counts};
use crate::limits::Limit;
use crate::mass_tables::Tables;
use crate::probes::scaled_window_of;
use crate::strides::Strides;
use crate::walk::{find_left, stand_at};
use mass_scaling::Window;
use outside_ports::Steps;
use std::alloc::{AllocError, Global};
use std::marker::Model;
use std::sync::ledger::Ledger;

/// Enumerates the count lists of a box whose mass is in a window, in lexicographic order, small
/// counts first. It is seen as its masses, limits and window and the list that it gave last.
///
/// The walk is kept from one list to the next, so that the next one costs what lies between.
#[derive(Drop)]
pub struct Decomps<'t> {
    tables: &'t Tables,
    symbols: Vec<Symbol>,
    /// How the remainders by the last symbol's mass go on as that of the one before it is taken off.
    strides: Strides,
    window: Window,
    /// The window of scaled masses; None where no count list has its mass in the window.
    scaled: Option<Window>,
    /// A level for each symbol: their counts are the list given last, once one was given.
    levels: Vec<Level>,
    /// At how many levels the walk stands, once a list was given: no list with their counts is left.
    stands: Option<usize>,
}

impl<'t> Model for Decomps<'t> {
    ghost use Rattle.std.specs.Prelude.{List};
    ghost use Rattle.decompose.specs.Enumeration.{Enumeration};
    ghost use Rattle.decompose.specs.Search.{enumeration};
    ghost use Rattle.decompose.specs.Levels.{limits_of, counts_of};
    ghost use Rattle.decompose.specs.Strides.{KnowsStrides};
    ghost use Rattle.decompose.specs.Walk.{IsWalk, given_of};

    ghost Value = { Enumeration };

    ghost view = { λ d. enumeration d.tables.now (limits_of d.symbols.items) d.window
        (given_of d.stands (counts_of d.levels.items)) };

    ghost invariant = { λ d. IsWalk d.tables.now d.symbols.items d.window d.scaled d.levels.items d.stands
        × KnowsStrides d.symbols.items d.strides };
}

/// Whether these counts are within the limits, one for each.
fn is_in_box(limits: &[Limit], counts: &[u32]) -> bool
    ensures { IsTrue result ↔ IsInBox limits.now counts.now }
{
    limits.len() == counts.len()
        && limits.iter().zip(counts).all(|(limit, count)| limit.low <= *count
            && *count <= limit.high)
}

impl<'t> Decomps<'t> {
    /// An enumeration from its start: over the masses of the tables, with a limit for each of them
    /// and a window that begins above 0 and isn't empty. It has left each list of counts within the limits whose
    /// mass is in the window once, in lexicographic order.
    pub fn start(
        alloc: Global,
        tables: &'t Tables,
        limits: &[Limit],
        window: Window,
    ) -> Result<Decomps<'t>, AllocError>
        requires one_limit_each { length limits.now ≡ length tables.now }
        requires limits { All IsLimit limits.now }
        requires window { IsWindow window }
        ensures start { IfOk result (λ d.
            d ≡ record { masses = tables.now; limits = limits.now; window = window; given = None }) }
        ensures all_left { IfOk result (λ d. left d ≡ vectors tables.now limits.now window) }
        ensures each { (cs : List ℕ) → Contains (vectors tables.now limits.now window) cs
            ↔ (IsInBox limits.now cs × IsTrue (is_within window (mass_of tables.now cs))) }
        ensures rising { AllPairs (λ a b. IsTrue (comes_after a b)) (vectors tables.now limits.now window) }
    {
        let symbols = symbols_of(alloc, &tables.masses, tables.scale.scaled(), limits)?;
        let levels = vec![in alloc; Level {
            count: 0,
            left: window
        }; symbols.len()]?;
        let strides = Strides::of_last(&symbols);
        Ok(Decomps {
            tables,
            symbols,
            strides,
            window,
            scaled: scaled_window_of(tables, window),
            levels,
            stands: None,
        })
    }

    /// An enumeration that goes on after these counts, which need not have their mass in the window:
    /// it has the lists that come after them. The rest is as for `start`.
    ///
    /// `NotInBox` exactly where the number of counts differs or a count is outside its limits.
    pub fn resume(
        alloc: Global,
        tables: &'t Tables,
        limits: &[Limit],
        window: Window,
        after: &Counts,
    ) -> Result<Decomps<'t>, ResumeFault>
        requires one_limit_each { length limits.now ≡ length tables.now }
        requires limits { All IsLimit limits.now }
        requires window { IsWindow window }
        ensures resumed { IfOk result (λ d.
            d ≡ record { masses = tables.now; limits = limits.now; window = window; given = Some after.now }) }
        ensures rest_left { IfOk result (λ d.
            left d ≡ lists_after (vectors tables.now limits.now window) after.now) }
        ensures in_box { OnOk result (IsInBox limits.now after.now) }
        ensures not_in_box { IsErrOf result ResumeFault.NotInBox ↔ (¬ IsInBox limits.now after.now) }
    {
        if !is_in_box(limits, after.counts()) {
            return Err(ResumeFault::NotInBox);
        }
        let symbols = symbols_of(alloc, &tables.masses, tables.scale.scaled(), limits)?;
        let mut levels = levels_of(alloc, window, after.counts())?;
        let depth = stand_at(&symbols, window, &mut levels);
        let strides = Strides::of_last(&symbols);
        Ok(Decomps {
            tables,
            symbols,
            strides,
            window,
            scaled: scaled_window_of(tables, window),
            levels,
            stands: Some(depth),
        })
    }

    /// The list given last, with which `resume` goes on: after `resume` it is the list handed in
    /// until another is given. None where none was given since `start`.
    pub fn token(&self) -> Result<Option<Counts>, AllocError>
        ensures { IfOk result (λ token. token ≡ self.now.given) }
    {
        if self.stands.is_none() {
            return Ok(None);
        }
        let counts = counts_of(*self.levels.allocator(), &self.levels)?;
        Ok(Some(Counts { counts }))
    }

    /// Walks on to the first list that is left; false where none is.
    fn walk_on<L: Ledger>(&mut self, steps: &mut Steps<L>) -> bool
        ensures steps { (scaled : Window) → IsScaledWindowOf self.old.masses self.old.window scaled → steps.new ≤
            steps.old + most_steps self.old.masses scaled self.old.given (if result then self.new.given else None) }
        ensures no_steps { HasNoScaledWindow self.old.masses self.old.window → steps.new ≡ steps.old }
        ensures walks { MatchBool result
            (IsSomeAnd self.new.given (λ next.
            (find (is_left self.old.masses self.old.window self.old.given) (box_of self.old.limits) ≡ Some next)
            × (self.new ≡ record self.old { given = Some next })))
            ((find (is_left self.old.masses self.old.window self.old.given) (box_of self.old.limits) ≡ None)
            × (self.new ≡ self.old)) }
    {
        let tables = self.tables;
        let residues = &tables.residues;
        if find_left(
            residues,
            &self.symbols,
            &self.strides,
            self.window,
            self.scaled,
            self.stands,
            &mut self.levels,
            steps,
        ) {
            self.stands = Some(self.levels.len());
            return true;
        }
        // Nothing is left, and nothing will be.
        self.stands = self.stands.and(Some(0));
        false
    }

    /// Gives the next list: writes it into `out`, which has a count for each mass. False exactly at
    /// the end, and `out` is then as before. Takes no memory.
    pub fn next_into<L: Ledger>(&mut self, out: &mut Counts, steps: &mut Steps<L>) -> bool
        requires { length out.old ≡ length self.old.masses }
        ensures next { OnTrue result (left self.old ≡ out.new ∷ left self.new) }
        ensures end { IsTrue (not result) ↔ (left self.old ≡ []) }
        ensures given { OnTrue result (self.new ≡ record self.old { given = Some out.new }) }
        ensures in_box { OnTrue result (IsInBox self.old.limits out.new) }
        ensures in_window { OnTrue result
            (IsTrue (is_within self.old.window (mass_of self.old.masses out.new))) }
        ensures unchanged { OnFalse result (self.new ≡ self.old) }
        ensures out_unchanged { OnFalse result (out.new ≡ out.old) }
        ensures length { length out.new ≡ length out.old }
        ensures steps { (scaled : Window) → IsScaledWindowOf self.old.masses self.old.window scaled → steps.new ≤
            steps.old + most_steps self.old.masses scaled self.old.given (if result then Some out.new else None) }
        ensures no_steps { HasNoScaledWindow self.old.masses self.old.window → steps.new ≡ steps.old }
    {
        if !self.walk_on(steps) {
            return false;
        }
        write_counts(&self.levels, &mut out.counts);
        true
    }
}
