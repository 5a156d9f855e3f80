//! The masses of the isotopologues of one formula, found once for all of them.
ghost use Rattle.std.specs.Prelude.{◌≡◌, ◌++◌, ◌≤◌, All, IfOk, OnOk, length, sum};
ghost use Rattle.element_table.specs.Elements.{IsIsotope};
ghost use Rattle.formula_text.specs.Formulas.{atoms_of};
ghost use Rattle.formula_text.specs.Masses.{HasItems};
ghost use Rattle.isotopologue_text.specs.Isotopologues.{isotopes_that_occur, formula_isotopes, counts_mass};
ghost use Rattle.isotopologue_text.specs.Weighed.{isotope_masses, weighed_mass};

use crate::isotopes::isotopes_of;
use crate::mass::labelled_mass;
use element_table::{Isotope, Table};
use formula_text::{Formula, Item};
use std::alloc::{AllocError, Global};
use std::marker::Model;

/// The isotopes that the isotopologues of a formula count, with the mass of its labelled atoms: what the mass of each
/// isotopologue is made of, without a look at the table.
#[derive(Drop)]
pub struct IsotopeMasses {
    isotopes: Vec<Isotope>,
    labelled: u64,
}

impl Model for IsotopeMasses {
    ghost use Rattle.std.specs.Prelude.{◌≤◌, All};
    ghost use Rattle.element_table.specs.Elements.{IsIsotope};
    ghost use Rattle.isotopologue_text.specs.Weighed.{Weighed};

    ghost Value = { Weighed };

    ghost view = { λ m. record { isotopes = m.isotopes.items; labelled = m.labelled } };

    ghost invariant = { λ m. All IsIsotope m.isotopes.items × (m.labelled ≤ 8000000000000000000) };
}

impl IsotopeMasses {
    /// What the masses of the isotopologues of a formula are made of.
    pub fn of(alloc: Global, table: &Table, formula: &Formula) -> Result<IsotopeMasses, AllocError>
        requires { HasItems table.now formula.now }
        ensures { IfOk result (λ m. m ≡ isotope_masses table.now formula.now) }
    {
        let parts = formula.items();
        Ok(IsotopeMasses {
            isotopes: isotopes_in(alloc, table, parts)?,
            labelled: labelled_mass(table, parts),
        })
    }

    /// The mass of an isotopologue in 10^-12 Da, the formula's labelled atoms included.
    pub fn mass(&self, counts: &[u32]) -> u64
        requires agree { length counts.now ≡ length self.now.isotopes }
        requires few_atoms { sum counts.now ≤ 20000 }
        ensures { result ≡ weighed_mass self.now counts.now }
    {
        mass_of(&self.isotopes, counts) + self.labelled
    }
}

/// The sum of count times mass over isotopes.
fn mass_of(isotopes: &[Isotope], counts: &[u32]) -> u64
    requires agree { length counts.now ≡ length isotopes.now }
    requires few_atoms { sum counts.now ≤ 20000 }
    requires isotopes { All IsIsotope isotopes.now }
    ensures mass { result ≡ counts_mass isotopes.now counts.now }
    ensures bound { result ≤ 8000000000000000000 }
{
    let mut mass = 0;
    for place in 0..isotopes.len() {
        mass += u64::from(counts[place]) * isotopes[place].mass;
    }
    mass
}

/// The isotopes that occur of the items without a label.
fn isotopes_in(
    alloc: Global,
    table: &Table,
    parts: &[(Item, u32)],
) -> Result<Vec<Isotope>, AllocError>
    requires { HasItems table.now parts.now }
    ensures isotopes { IfOk result (λ found. found.items ≡ formula_isotopes table.now parts.now) }
    ensures are_isotopes { IfOk result (λ found. All IsIsotope found.items) }
{
    let mut isotopes = Vec::new(alloc);
    for (item, _) in parts {
        if item.label == 0 {
            push_isotopes(isotopes_of(table, item), &mut isotopes)?;
        }
    }
    Ok(isotopes)
}

/// Appends the isotopes of an element that occur.
fn push_isotopes(own: &[Isotope], isotopes: &mut Vec<Isotope>) -> Result<(), AllocError>
    requires isotopes { All IsIsotope own.now }
    requires are_isotopes { All IsIsotope isotopes.old.items }
    ensures isotopes { OnOk result (isotopes.new.items ≡ isotopes.old.items ++ isotopes_that_occur own.now) }
    ensures are_isotopes { OnOk result (All IsIsotope isotopes.new.items) }
{
    for isotope in own {
        if isotope.weight > 0 {
            isotopes.push(*isotope)?;
        }
    }
    Ok(())
}
