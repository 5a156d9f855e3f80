//! A list of rules, and the verdict of it on a formula.

ghost use Rattle.std.specs.Prelude.{◌≡◌, ◌↔◌, ◌<◌, ◌≤◌, [], IsTrue, IfSome, length, position, not};
ghost use Rattle.formula_text.specs.Formulas.{atoms_of};
ghost use Rattle.formula_text.specs.Limits.{max_atoms};
ghost use Rattle.formula_text.specs.Masses.{HasItems};
ghost use Rattle.golden_rules.specs.Limits.{max_rules};
ghost use Rattle.golden_rules.specs.MeetsRules.{IsVerdict};
ghost use Rattle.golden_rules.specs.Verdicts.{meets, meets_all, verdict};
ghost use Rattle.golden_rules.specs.declared.rules.Verdict.{Verdict};

use crate::kinds::meets;
use crate::rule::Rule;
use element_table::Table;
use formula_text::{Formula, Item};
use std::alloc::Global;
use std::marker::Model;

/// What rules say of a formula.
#[derive(Clone, Copy, Debug, PartialEq, Eq)]
pub enum Verdict {
    /// It meets all rules.
    Pass,
    /// It doesn't meet the rule of this number, counted from 1, and meets those before it.
    Fails { rule: u32 },
}

/// A list of at most 64 rules. Contracts see the list.
#[derive(Debug, Drop)]
pub struct Rules {
    rules: Vec<Rule>,
}

impl Model for Rules {
    ghost use Rattle.std.specs.Prelude.{List, length, ◌≤◌};
    ghost use Rattle.golden_rules.specs.declared.rule.Rule.{Rule};
    ghost use Rattle.golden_rules.specs.Limits.{max_rules};

    ghost Value = { List Rule };

    ghost view = { λ r. r.rules.items };

    ghost invariant = { λ r. length r.rules.items ≤ max_rules };
}

impl Rules {
    /// No rules: every formula passes.
    pub fn none(alloc: Global) -> Rules
        ensures { result ≡ [] }
    {
        Rules {
            rules: Vec::new(alloc),
        }
    }

    /// The rules of a list.
    pub(crate) fn of(rules: Vec<Rule>) -> Rules
        requires { length rules.items ≤ max_rules }
        ensures { result ≡ rules.items }
    {
        Rules { rules }
    }

    /// The rules in their order.
    pub fn rules(&self) -> &[Rule]
        ensures rules { result.now ≡ self.now }
        ensures few { length self.now ≤ max_rules }
    {
        &self.rules
    }

    /// Whether a formula meets all rules, and else the number, counted from 1, of the first that it doesn't meet. The
    /// table has to have each item of the formula, and gives the valences.
    pub fn holds(&self, table: &Table, formula: &Formula) -> Verdict
        requires { HasItems table.now formula.now }
        ensures value { result ≡ verdict table.now self.now formula.now }
        ensures passes { (result ≡ Verdict.Pass) ↔ IsTrue (meets_all table.now self.now formula.now) }
        ensures meaning { IsVerdict table.now self.now formula.now result }
        ensures only { (other : Verdict) → IsVerdict table.now self.now formula.now other → other ≡ result }
    {
        match self.first_failing(table, formula) {
            None => Verdict::Pass,
            Some(place) => Verdict::Fails {
                rule: place as u32 + 1,
            },
        }
    }

    /// Whether items with their counts meet all rules: those of a formula, or the items of a list that have an atom.
    /// There are at most 20,000 atoms, and the table gives the valences. Takes no memory.
    pub fn are_met(&self, table: &Table, items: &[(Item, u32)]) -> bool
        requires { atoms_of items.now ≤ max_atoms }
        ensures { result ≡ meets_all table.now self.now items.now }
    {
        self.rules.iter().all(|rule| meets(table, items, rule))
    }

    /// The place of the first rule that a formula doesn't meet.
    fn first_failing(&self, table: &Table, formula: &Formula) -> Option<usize>
        requires { HasItems table.now formula.now }
        ensures place { result ≡ position (λ rule. not (meets table.now formula.now rule)) self.now }
        ensures few { IfSome result (λ place. place < max_rules) }
    {
        let items = formula.items();
        self.rules
            .iter()
            .position(|rule| !meets(table, items, rule))
    }
}
