//! The cover of a formula.

use crate::member::{CoverMember, members_of};
use crate::numbered::{NumberedCover, numbered_cover_of};
use element_table::Table;
use formula_text::Formula;
use reaching_layer::CoverFault;
use std::alloc::{AllocError, Global};
use std::marker::Model;

/// The cover of a formula: the members of the reaching layer by falling lower bound, ties in the lexicographic order
/// of their counts, of which the first are the cover.
#[derive(Debug, Drop)]
pub struct Cover {
    formula: Formula,
    coverage: u64,
    threshold: u64,
    size: u64,
    bound: u64,
    layer: Vec<CoverMember>,
}

impl Model for Cover {
    ghost use Rattle.std.specs.Prelude.{◌≤◌, length};
    ghost use Rattle.cover_certificate.specs.FormulaCovers.{CoverEntries};

    ghost Value = { CoverEntries };

    ghost view = { λ c. record {
      formula = c.formula;
      coverage = c.coverage;
      threshold = c.threshold;
      size = c.size;
      bound = c.bound;
      layer = c.layer.items;
    } };

    ghost invariant = { λ c. c.size ≤ length c.layer.items };
}

impl Cover {
    ghost use Rattle.std.specs.Prelude.{◌≡◌, ◌≤◌, IfOk, length};

    /// The same cover, with the texts of its members.
    pub fn of_numbered(alloc: Global, numbered: &NumberedCover) -> Result<Cover, AllocError>
        ensures { IfOk result (λ c. c ≡ numbered.now) }
    {
        Ok(Cover {
            formula: numbered.formula().clone()?,
            coverage: numbered.coverage(),
            threshold: numbered.threshold(),
            size: numbered.size(),
            bound: numbered.bound(),
            layer: members_of(alloc, numbered)?,
        })
    }

    /// How many members the cover has: as few, from the first one of the layer on, as have lower bounds that total
    /// at least the coverage.
    pub fn size(&self) -> u64
        ensures size { result ≡ self.now.size }
        ensures within { result ≤ length self.now.layer }
    {
        self.size
    }

    /// A number such that no set of fewer isotopologues of the formula has the coverage.
    pub fn bound(&self) -> u64
        ensures { result ≡ self.now.bound }
    {
        self.bound
    }

    /// The threshold of the reaching layer, in units of 10^-18: its members' upper bounds are above it.
    pub fn threshold(&self) -> u64
        ensures { result ≡ self.now.threshold }
    {
        self.threshold
    }

    /// The wanted coverage, in units of 10^-18.
    pub fn coverage(&self) -> u64
        ensures { result ≡ self.now.coverage }
    {
        self.coverage
    }

    /// The formula.
    pub fn formula(&self) -> &Formula
        ensures { result.now ≡ self.now.formula }
    {
        &self.formula
    }

    /// The whole reaching layer in the cover's order. The first `size` members are the cover.
    pub fn layer(&self) -> &[CoverMember]
        ensures { result.now ≡ self.now.layer }
    {
        &self.layer
    }
}

ghost use Rattle.std.specs.Prelude.{◌≡◌, ◌*◌, ◌^◌, ◌≤◌, All, IfOk, map};
ghost use Rattle.reader_answers.specs.Answers.{Gives};
ghost use Rattle.multinomial_bounds.specs.Bounds.{IsEnclosure};
ghost use Rattle.multinomial_bounds.specs.Isotopologue.{isotopologue_weight, all_weight};
ghost use Rattle.isotopologue_sets.specs.Covers.{IsCover};
ghost use Rattle.reaching_layer.specs.LayerAnswers.{is_memory};
ghost use Rattle.formula_text.specs.Masses.{HasItems};
ghost use Rattle.isotopologue_text.specs.Isotopologues.{formula_elements, IsIsotopologueOf};
ghost use Rattle.cover_certificate.specs.FormulaCovers.{cover_unless_too_many, member_numbers};

/// The cover of a formula for a wanted coverage in units of 10^-18, from 1 to 999,999 * 10^12.
///
/// `TooMany` comes exactly where a layer has more than 1,048,576 members and none before it has the coverage; its
/// threshold is that of this layer. `Memory` comes for want of memory.
pub fn cover_of(
    alloc: Global,
    table: &Table,
    formula: &Formula,
    coverage: u64,
) -> Result<Cover, CoverFault>
    requires known { HasItems table.now formula.now }
    requires some { 1 ≤ coverage }
    requires below_one { coverage ≤ 999999 * 10 ^ 12 }
    ensures cover { Gives is_memory result (cover_unless_too_many table.now formula.now coverage) }

    // What follows of the returned cover, by the exact weights of its members.
    ensures isotopologues { IfOk result (λ c. All (λ m. IsIsotopologueOf table.now formula.now m.counts) c.layer) }
    ensures claims { IfOk result (λ c. let elements = formula_elements table.now formula.now in
        IsCover elements coverage c.size c.bound (map (member_numbers elements) c.layer)) }
    ensures encloses { IfOk result (λ c. let elements = formula_elements table.now formula.now in
        All (λ m. IsEnclosure m.lo m.hi (isotopologue_weight elements m.counts) (all_weight elements))
        (map (member_numbers elements) c.layer)) }
{
    let numbered = numbered_cover_of(alloc, table, formula, coverage)?;
    Ok(Cover::of_numbered(alloc, &numbered)?)
}
