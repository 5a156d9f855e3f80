//! The entries of the report of formulas in JSON.
ghost use Rattle.std.specs.Prelude.{◌≡◌, All, IfOk, IsTrue, is_some, map};
ghost use Rattle.formula_text.specs.Masses.{HasItems};
ghost use Rattle.adducts.specs.Ions.{ion_of};
ghost use Rattle.report_lines.specs.ReportLines.{IsPrintedMass};
ghost use Rattle.serde_json.specs.Events.{SendsValue};
ghost use Rattle.report_text.specs.JsonReports.{formula_data, formula_entry, ion_entry, peak_data, peak_entry};

use crate::entries::Entries;
use crate::member::send_member;
use crate::text::Text;
use adducts::{Adduct, ion_mass};
use element_table::Table;
use formula_text::Formula;
use report_lines::{Word, ion_mass_word, mass_difference};
use serde::{Described, Serialize, Serializer};
use std::alloc::{AllocError, Global};

/// A formula of a peak: its text and its mass, the mass of its ion, and how far that is above divisor times m/z.
#[derive(Drop)]
pub struct FormulaEntry {
    delta: Text,
    formula: Text,
    ion: Text,
    mass: Text,
}

impl FormulaEntry {
    /// The entry of a formula for a peak of this m/z. The ion is defined, and the table has each item.
    fn of(
        alloc: Global,
        table: &Table,
        adduct: &Adduct,
        mz: u64,
        formula: &Formula,
    ) -> Result<FormulaEntry, AllocError>
        requires known { HasItems table.now formula.now }
        requires added_known { HasItems table.now adduct.now.added }
        requires lost_known { HasItems table.now adduct.now.lost }
        requires defined { IsTrue (is_some (ion_of adduct.now formula.now)) }
        ensures { IfOk result (λ entry. entry ≡ formula_entry table.now adduct.now mz formula.now) }
    {
        match ion_mass(table, formula, adduct) {
            Some(ion_mass) => {
                let mass = formula.mass(table);
                FormulaEntry::with_ion(alloc, formula, mass, ion_mass, mz, adduct.divisor())
            }
            None => unreachable!(),
        }
    }

    /// The entry of a formula of this mass over its ion of this mass.
    fn with_ion(
        alloc: Global,
        formula: &Formula,
        mass: u64,
        ion_mass: i128,
        mz: u64,
        divisor: u32,
    ) -> Result<FormulaEntry, AllocError>
        requires { IsPrintedMass ion_mass }
        ensures { IfOk result (λ entry. entry ≡ ion_entry formula.now mass ion_mass mz divisor) }
    {
        let difference = mass_difference(ion_mass, mz, divisor);
        Ok(FormulaEntry {
            delta: Text::of(alloc, &Word::Difference(difference))?,
            formula: Text::of(alloc, &Word::Formula(formula.items()))?,
            ion: Text::of(alloc, &ion_mass_word(ion_mass))?,
            mass: Text::of(alloc, &Word::Mass(mass))?,
        })
    }
}

impl Described for FormulaEntry {
    ghost writes = { λ entry. SendsValue (formula_data entry) };
}

impl Serialize for FormulaEntry {
    fn serialize<S: Serializer>(&self, out: &mut S) -> Result<(), S::Error> {
        out.begin_map(Some(4))?;
        send_member(out, "delta", &self.delta)?;
        send_member(out, "formula", &self.formula)?;
        send_member(out, "ion", &self.ion)?;
        send_member(out, "mass", &self.mass)?;
        out.end_map()
    }
}

/// A peak: its number, its m/z and its formulas.
#[derive(Drop)]
pub struct PeakEntry {
    formulas: Entries<FormulaEntry>,
    mz: Text,
    peak: u64,
}

impl PeakEntry {
    /// The entry of a peak. The ions are defined, and the table has each item.
    pub fn of(
        alloc: Global,
        table: &Table,
        adduct: &Adduct,
        peak: u64,
        mz: u64,
        formulas: &[Formula],
    ) -> Result<PeakEntry, AllocError>
        requires known { All (HasItems table.now) formulas.now }
        requires added_known { HasItems table.now adduct.now.added }
        requires lost_known { HasItems table.now adduct.now.lost }
        requires defined { All (λ f. IsTrue (is_some (ion_of adduct.now f))) formulas.now }
        ensures { IfOk result (λ entry. entry ≡ peak_entry table.now adduct.now peak mz formulas.now) }
    {
        Ok(PeakEntry {
            formulas: formula_entries(alloc, table, adduct, mz, formulas)?,
            mz: Text::of(alloc, &Word::Mass(mz))?,
            peak,
        })
    }
}

/// The entries of the formulas of a peak.
fn formula_entries(
    alloc: Global,
    table: &Table,
    adduct: &Adduct,
    mz: u64,
    formulas: &[Formula],
) -> Result<Entries<FormulaEntry>, AllocError>
    requires known { All (HasItems table.now) formulas.now }
    requires added_known { HasItems table.now adduct.now.added }
    requires lost_known { HasItems table.now adduct.now.lost }
    requires defined { All (λ f. IsTrue (is_some (ion_of adduct.now f))) formulas.now }
    ensures { IfOk result (λ entries.
        entries ≡ map (formula_entry table.now adduct.now mz) formulas.now) }
{
    let mut entries = Entries::new(alloc);
    for formula in formulas {
        entries.push(FormulaEntry::of(alloc, table, adduct, mz, formula)?)?;
    }
    Ok(entries)
}

impl Described for PeakEntry {
    ghost writes = { λ entry. SendsValue (peak_data entry) };
}

impl Serialize for PeakEntry {
    fn serialize<S: Serializer>(&self, out: &mut S) -> Result<(), S::Error> {
        out.begin_map(Some(3))?;
        send_member(out, "formulas", &self.formulas)?;
        send_member(out, "mz", &self.mz)?;
        send_member(out, "peak", &self.peak)?;
        out.end_map()
    }
}
