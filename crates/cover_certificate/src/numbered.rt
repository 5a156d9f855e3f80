//! The cover of a formula by its numbers, whose members get their texts one at a time.

use element_table::Table;
use formula_text::Formula;
use isotopologue_text::{PrintedIsotopes, elements_of};
use multinomial_bounds::Enclosure;
use reaching_layer::{CoverFault, ReachingLayer, reaching_layer};
use std::alloc::{AllocError, Global};
use std::marker::Model;

/// The cover of a formula without the texts of its members, which [`NumberedCover::push_text`] writes one at a time.
/// It takes a third of the memory of a [`Cover`](crate::Cover), and no time for members that aren't printed. Contracts
/// see it as that cover.
#[derive(Drop)]
pub struct NumberedCover {
    formula: Formula,
    coverage: u64,
    numbers: ReachingLayer,
    /// What each member is printed with, found once.
    printed: PrintedIsotopes,
}

impl Model for NumberedCover {
    ghost use Rattle.cover_certificate.specs.FormulaCovers.{ArePrintedWith, CoverEntries, printed_cover};

    ghost Value = { CoverEntries };

    ghost view = { λ c. printed_cover c.formula c.coverage c.printed c.numbers };

    ghost invariant = { λ c. ArePrintedWith c.printed c.numbers.members };
}

impl NumberedCover {
    ghost use Rattle.std.specs.Prelude.{◌≡◌, ◌<◌, ◌≤◌, ◌++◌, OnOk, length, slice_index_or};
    ghost use Rattle.cover_certificate.specs.FormulaCovers.{MemberEntry};

    /// How many members the cover has, of those of the layer the first ones.
    pub fn size(&self) -> u64
        ensures size { result ≡ self.now.size }
        ensures within { result ≤ length self.now.layer }
    {
        self.numbers.size() as u64
    }

    /// A number such that no set of fewer isotopologues of the formula has the coverage.
    pub fn bound(&self) -> u64
        ensures { result ≡ self.now.bound }
    {
        self.numbers.bound() as u64
    }

    /// The threshold of the reaching layer, in units of 10^-18: its members' upper bounds are above it.
    pub fn threshold(&self) -> u64
        ensures { result ≡ self.now.threshold }
    {
        self.numbers.threshold()
    }

    /// The wanted coverage, in units of 10^-18.
    pub fn coverage(&self) -> u64
        ensures { result ≡ self.now.coverage }
    {
        self.coverage
    }

    /// The formula.
    pub fn formula(&self) -> &Formula
        ensures { result.now ≡ self.now.formula }
    {
        &self.formula
    }

    /// How many members the whole reaching layer has.
    pub fn len(&self) -> usize
        ensures { result ≡ length self.now.layer }
    {
        self.numbers.len()
    }

    /// The counts of the member at a place of the reaching layer in the cover's order, 0 first, one element after
    /// another.
    pub fn counts(&self, place: usize) -> &[u32]
        requires { place < length self.now.layer }
        ensures { (d : MemberEntry) → result.now ≡ (slice_index_or self.now.layer place d).counts }
    {
        self.numbers.counts(place)
    }

    /// Appends the text of the member at a place. It fails only for want of memory.
    pub fn push_text(&self, place: usize, text: &mut Vec<u8>) -> Result<(), AllocError>
        requires { place < length self.now.layer }
        ensures { OnOk result ((d : MemberEntry) →
            text.new.items ≡ text.old.items ++ (slice_index_or self.now.layer place d).text) }
    {
        self.printed.push_text(self.numbers.counts(place), text)
    }

    /// The mass of the member at a place in 10^-12 Da, the formula's labelled atoms included.
    pub fn mass(&self, place: usize) -> u64
        requires { place < length self.now.layer }
        ensures { (d : MemberEntry) → result ≡ (slice_index_or self.now.layer place d).mass }
    {
        self.printed.mass(self.numbers.counts(place))
    }

    /// The enclosure of the member at a place, in units of 10^-18.
    pub fn enclosure(&self, place: usize) -> Enclosure
        requires { place < length self.now.layer }
        ensures lo { (d : MemberEntry) → result.lo ≡ (slice_index_or self.now.layer place d).lo }
        ensures hi { (d : MemberEntry) → result.hi ≡ (slice_index_or self.now.layer place d).hi }
    {
        self.numbers.enclosure(place)
    }
}

ghost use Rattle.std.specs.Prelude.{◌≡◌, ◌*◌, ◌^◌, ◌≤◌, All, IfOk, map};
ghost use Rattle.reader_answers.specs.Answers.{Gives};
ghost use Rattle.multinomial_bounds.specs.Bounds.{IsEnclosure};
ghost use Rattle.multinomial_bounds.specs.Isotopologue.{isotopologue_weight, all_weight};
ghost use Rattle.isotopologue_sets.specs.Covers.{IsCover};
ghost use Rattle.reaching_layer.specs.LayerAnswers.{is_memory};
ghost use Rattle.formula_text.specs.Masses.{HasItems};
ghost use Rattle.isotopologue_text.specs.Isotopologues.{formula_elements, IsIsotopologueOf};
ghost use Rattle.cover_certificate.specs.FormulaCovers.{cover_unless_too_many, member_numbers};

/// The cover of a formula for a wanted coverage in units of 10^-18, from 1 to 999,999 * 10^12, without the texts of its
/// members: it is that of [`cover_of`](crate::cover_of), and is refused for the same causes.
pub fn numbered_cover_of(
    alloc: Global,
    table: &Table,
    formula: &Formula,
    coverage: u64,
) -> Result<NumberedCover, CoverFault>
    requires known { HasItems table.now formula.now }
    requires some { 1 ≤ coverage }
    requires below_one { coverage ≤ 999999 * 10 ^ 12 }
    ensures cover { Gives is_memory result (cover_unless_too_many table.now formula.now coverage) }

    // What follows of the returned cover, by the exact weights of its members.
    ensures isotopologues { IfOk result (λ c. All (λ m. IsIsotopologueOf table.now formula.now m.counts) c.layer) }
    ensures claims { IfOk result (λ c. let elements = formula_elements table.now formula.now in
        IsCover elements coverage c.size c.bound (map (member_numbers elements) c.layer)) }
    ensures encloses { IfOk result (λ c. let elements = formula_elements table.now formula.now in
        All (λ m. IsEnclosure m.lo m.hi (isotopologue_weight elements m.counts) (all_weight elements))
        (map (member_numbers elements) c.layer)) }
{
    let elements = elements_of(alloc, table, formula)?;
    let numbers = reaching_layer(alloc, &elements, coverage)?;
    Ok(NumberedCover {
        formula: formula.clone()?,
        coverage,
        numbers,
        printed: PrintedIsotopes::of(alloc, table, formula)?,
    })
}
