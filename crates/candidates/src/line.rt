//! The line of a candidate in a report.
ghost use Rattle.std.specs.Prelude.{◌≡◌, ◌+◌, ◌*◌, ◌^◌, ◌<◌, ◌≤◌, ◌++◌, pos, ◌+ℤ◌, length, true, is_some, All};
ghost use Rattle.std.specs.Prelude.{OnOk, OnErr, unsigned_abs};
ghost use Rattle.formula_text.specs.Formulas.{IsFormula};
ghost use Rattle.formula_text.specs.Masses as formulas;
ghost use Rattle.decompose.specs.Masses.{mass_of};
ghost use Rattle.mass_scaling.specs.declared.limits.TheConstants.{MAX_COPIES};
ghost use Rattle.adducts.specs.Ions.{ion_of, shift_of};
ghost use Rattle.report_lines.specs.ReportLines.{decompose_line};
ghost use Rattle.candidates.specs.Lines.{line_at};
ghost use Rattle.candidates.specs.Standings.{IsToken};

use crate::grounds::Ground;
use crate::search::atoms_in;
use adducts::{Adduct, has_ion};
use alphabet_text::MAX_ENTRIES;
use formula_text::{MAX_ATOMS_OF_ITEM, MAX_ITEMS};
use report_lines::push_items_line;
use std::alloc::AllocError;
use written_items::Item;

/// Room for the items of a formula over an alphabet. What it holds is of no use to anybody.
pub type ItemRoom = [(Item, u32); MAX_ENTRIES];

/// Room for the items of a formula, each with no atom yet.
pub fn item_room(premises: &Ground) -> ItemRoom
    ensures { All (λ entry. entry.1 ≡ 0) result }
{
    [(premises.alphabet().items()[0], 0); MAX_ENTRIES]
}

/// Appends the line of the formula of a count list over its ion, nothing where the ion isn't defined. The items of the
/// formula are written in `room`, which who appends many lines makes once. Without memory for it the report stays as it
/// was.
pub fn push_line(
    premises: &Ground,
    mz: u64,
    counts: &[u32],
    room: &mut ItemRoom,
    report: &mut Vec<u8>,
) -> Result<(), AllocError>
    requires { IsToken premises.now counts.now }
    ensures line { OnOk result (report.new.items ≡ report.old.items ++ line_at premises.now mz counts.now) }
    ensures refused { OnErr result (report.new.items ≡ report.old.items) }
{
    let alphabet = premises.alphabet();
    let items = alphabet.items();
    let count = premises.hill().write(items, counts, room);
    let mass = mass_of(alphabet.masses(), counts);
    push_formula(premises, mz, mass, &room[..count], report)
}

/// Appends the line of a formula of this mass over its ion, nothing where the ion isn't defined. Without room for it
/// the report stays as it was.
fn push_formula(
    premises: &Ground,
    mz: u64,
    mass: u64,
    formula: &[(Item, u32)],
    report: &mut Vec<u8>,
) -> Result<(), AllocError>
    requires formula { IsFormula formula.now }
    requires mass { mass ≡ formulas.mass_of premises.now.table formula.now }
    ensures line { OnOk result (report.new.items
        ≡ report.old.items ++ decompose_line premises.now.table formula.now premises.now.adduct mz) }
    ensures refused { OnErr result (report.new.items ≡ report.old.items) }
{
    if !is_ionized(formula, premises.adduct()) {
        return Ok(());
    }
    let ion_mass = ion_mass(premises, mass);
    push_items_line(
        report,
        formula,
        mass,
        ion_mass,
        mz,
        premises.adduct().divisor(),
    )
}

/// Whether the ion of a formula is defined.
fn is_ionized(formula: &[(Item, u32)], adduct: &Adduct) -> bool
    requires { IsFormula formula.now }
    ensures { result ≡ is_some (ion_of adduct.now formula.now) }
{
    is_far_from_limits(formula, adduct) || has_ion(formula, adduct)
}

/// Whether nothing is lost and the ion has so few atoms that it is near no limit. Its ion is defined then, and most
/// formulas need no other test.
fn is_far_from_limits(formula: &[(Item, u32)], adduct: &Adduct) -> bool
    requires { IsFormula formula.now }
    ensures { result ≡ true → is_some (ion_of adduct.now formula.now) ≡ true }
{
    if !adduct.lost().items().is_empty() {
        return false;
    }
    let added = adduct.added();
    let copied = u64::from(adduct.copies()) * u64::from(atoms_in(formula));
    if copied + u64::from(added.atoms()) > u64::from(MAX_ATOMS_OF_ITEM) {
        return false;
    }
    formula.len() + added.items().len() <= MAX_ITEMS
}

/// The mass of a count list, in 10^-12 Da.
fn mass_of(masses: &[u64], counts: &[u32]) -> u64
    requires one_count_each { length counts.now ≡ length masses.now }
    requires light { mass_of masses.now counts.now < 2 ^ 64 }
    ensures { result ≡ mass_of masses.now counts.now }
{
    let mut mass = 0;
    for (place, unit) in masses.iter().enumerate() {
        mass += u64::from(counts[place]) * unit;
    }
    mass
}

/// The mass of the ion of a formula of this mass, in 10^-12 Da.
fn ion_mass(premises: &Ground, mass: u64) -> i128
    ensures { result ≡ pos (premises.now.adduct.copies * mass)
        +ℤ shift_of premises.now.table premises.now.adduct }
{
    let charged = premises.charged();
    copied_mass(charged.copies, mass) + charged.shift
}

/// The mass of copies of a formula.
fn copied_mass(copies: u32, mass: u64) -> i128
    requires { copies ≤ MAX_COPIES }
    ensures mass { result ≡ pos (copies * mass) }
    ensures small { unsigned_abs result < 2 ^ 66 }
{
    i128::from(copies) * i128::from(mass)
}
