//! What the candidates of all peaks have in common.
ghost use Rattle.std.specs.Prelude.{◌≡◌, All, IfOk, map};
ghost use Rattle.formula_text.specs.Masses.{HasItems};
ghost use Rattle.mass_scaling.specs.Limits.{IsTolerance, IsCharged};
ghost use Rattle.alphabet_text.specs.Alphabets.{IsEntryOf};
ghost use Rattle.adducts.specs.Adducts.{divisor_of};
ghost use Rattle.adducts.specs.Ions.{shift_of};
ghost use Rattle.candidates.specs.Grounds.{IsGround};
ghost use Rattle.candidates.specs.HillOrders.{IsHillOrder};
ghost use Rattle.candidates.specs.PeakFormulas.{items_of};
ghost use Rattle.decompose.specs.Masses.{AreMasses};

use crate::hill::HillOrder;
use adducts::Adduct;
use alphabet_text::Alphabet;
use decompose::{ScaleFault, Tables};
use element_table::Table;
use golden_rules::Rules;
use mass_scaling::{Charged, Tolerance};
use std::alloc::{AllocError, Global};
use std::marker::Model;

/// What the candidates of all peaks have in common: the table, the alphabet, the adduct, the tolerance and the rules.
#[derive(Drop)]
pub struct Ground {
    table: Table,
    alphabet: Alphabet,
    adduct: Adduct,
    tolerance: Tolerance,
    rules: Rules,
    tables: Tables,
    charged: Charged,
    hill: HillOrder,
}

impl Model for Ground {
    ghost use Rattle.std.specs.Prelude.{◌≡◌, map};
    ghost use Rattle.adducts.specs.Adducts.{divisor_of};
    ghost use Rattle.adducts.specs.Ions.{shift_of};
    ghost use Rattle.mass_scaling.specs.Limits.{IsCharged};
    ghost use Rattle.candidates.specs.Grounds.{GroundValue, IsGround};
    ghost use Rattle.candidates.specs.HillOrders.{IsHillOrder};
    ghost use Rattle.candidates.specs.PeakFormulas.{items_of};

    ghost Value = { GroundValue };

    ghost view = { λ g. record {
      table = g.table;
      alphabet = g.alphabet;
      adduct = g.adduct;
      tolerance = g.tolerance;
      rules = g.rules;
    } };

    ghost invariant = { λ g. IsGround (record {
      table = g.table;
      alphabet = g.alphabet;
      adduct = g.adduct;
      tolerance = g.tolerance;
      rules = g.rules;
    })
        × (g.tables ≡ map (λ e. e.mass) g.alphabet)
        × (g.charged ≡ record {
          copies = g.adduct.copies;
          divisor = divisor_of g.adduct;
          shift = shift_of g.table g.adduct;
        })
        × IsCharged g.charged
        × IsHillOrder (items_of g.alphabet) g.hill };
}

impl Ground {
    /// The ground of these, where the alphabet, the adduct and the rules were read with the table and the tolerance is
    /// at most 1,000 ppm or 10 Da.
    pub fn of(
        alloc: Global,
        table: Table,
        alphabet: Alphabet,
        adduct: Adduct,
        tolerance: Tolerance,
        rules: Rules,
    ) -> Result<Ground, AllocError>
        requires entries { All (IsEntryOf table) alphabet }
        requires added_known { HasItems table adduct.added }
        requires lost_known { HasItems table adduct.lost }
        requires tolerance { IsTolerance tolerance }
        ensures made { IfOk result (λ premises. premises ≡ record {
          table = table;
          alphabet = alphabet;
          adduct = adduct;
          tolerance = tolerance;
          rules = rules;
        }) }
        ensures premises { IfOk result IsGround }
    {
        let charged = adduct.charged(&table);
        let tables = match Tables::of(alloc, alphabet.masses()) {
            Ok(tables) => tables,
            Err(ScaleFault::Memory) => return Err(AllocError),
            Err(ScaleFault::BaseTooHeavy) => unreachable!(),
        };
        let hill = HillOrder::of(alloc, alphabet.items())?;
        Ok(Ground {
            table,
            alphabet,
            adduct,
            tolerance,
            rules,
            tables,
            charged,
            hill,
        })
    }

    /// The table.
    pub fn table(&self) -> &Table
        ensures table { result.now ≡ self.now.table }
        ensures premises { IsGround self.now }
    {
        &self.table
    }

    /// The alphabet.
    pub fn alphabet(&self) -> &Alphabet
        ensures alphabet { result.now ≡ self.now.alphabet }
        ensures premises { IsGround self.now }
    {
        &self.alphabet
    }

    /// The adduct.
    pub fn adduct(&self) -> &Adduct
        ensures adduct { result.now ≡ self.now.adduct }
        ensures premises { IsGround self.now }
    {
        &self.adduct
    }

    /// The tolerance.
    pub fn tolerance(&self) -> Tolerance
        ensures tolerance { result ≡ self.now.tolerance }
        ensures premises { IsGround self.now }
    {
        self.tolerance
    }

    /// The rules.
    pub fn rules(&self) -> &Rules
        ensures rules { result.now ≡ self.now.rules }
        ensures premises { IsGround self.now }
    {
        &self.rules
    }

    /// The masses of the alphabet as a search takes them.
    pub(crate) fn tables(&self) -> &Tables
        ensures tables { result.now ≡ map (λ e. e.mass) self.now.alphabet }
        ensures premises { IsGround self.now }
    {
        &self.tables
    }

    /// The ions of the adduct as a window takes them.
    pub(crate) fn charged(&self) -> Charged
        ensures charged { result ≡ record {
          copies = self.now.adduct.copies;
          divisor = divisor_of self.now.adduct;
          shift = shift_of self.now.table self.now.adduct;
        } }
        ensures in_range { IsCharged result }
        ensures premises { IsGround self.now }
    {
        self.charged
    }

    /// The items of the alphabet in Hill order.
    pub(crate) fn hill(&self) -> &HillOrder
        ensures hill { IsHillOrder (items_of self.now.alphabet) result.now }
        ensures premises { IsGround self.now }
    {
        &self.hill
    }
}
