//! The lines of the report of formulas.
ghost use Rattle.std.specs.Prelude.{◌≡◌, [], ◌∷◌, ◌++◌, length, IfOk, OnOk, OnErr, IsTrue, is_some, codes, drop, ◌≤◌};
ghost use Rattle.std.specs.Fmt.{signed_decimal};
ghost use Rattle.formula_text.specs.PrintedText.{printed_text};
ghost use Rattle.report_lines.specs.ReportLines.{IsPrintedMass, ion_mass_text, line, mass_difference, mass_text};
ghost use Rattle.report_lines.specs.ReportLines.{decompose_head, peak_line, formula_line, decompose_line};
ghost use Rattle.formula_text.specs.Masses.{HasItems};
ghost use Rattle.adducts.specs.Ions.{ion_of};

use crate::formula::{GROUP, GROUP_LENGTH, write_group};
use crate::line::push_line;
use crate::word::{Word, ion_mass_word};
use crate::written::{NUMBERS_ROOM, write_masses, write_text};
use adducts::{Adduct, ion_mass};
use element_table::Table;
use formula_text::Formula;
use std::alloc::{AllocError, Global};
use written_items::Item;

/// What the line of a formula begins with.
const LINE_WORD: &[u8; 8] = b"formula ";

/// The bytes that the line of a formula of few items has room in.
const LINE_ROOM: usize = 8 + GROUP_LENGTH + NUMBERS_ROOM;

/// The line above the peaks of a report on so many.
pub fn decompose_head(alloc: Global, peaks: u64) -> Result<Vec<u8>, AllocError>
    ensures { IfOk result (λ text. text.items ≡ decompose_head peaks) }
{
    let mut text = Vec::new(alloc);
    push_decompose_head(&mut text, peaks)?;
    Ok(text)
}

/// Appends the line above the peaks of a report on so many. Without room for it the report stays as it was.
pub fn push_decompose_head(report: &mut Vec<u8>, peaks: u64) -> Result<(), AllocError>
    ensures line { OnOk result (report.new.items ≡ report.old.items ++ decompose_head peaks) }
    ensures refused { OnErr result (report.new.items ≡ report.old.items) }
{
    push_line(report, &[Word::Text(b"decompose"), Word::Number(peaks)])
}

/// The line above the formulas of a peak: its number and its m/z in 10^-12 Da.
pub fn peak_line(alloc: Global, number: u64, mz: u64) -> Result<Vec<u8>, AllocError>
    ensures { IfOk result (λ text. text.items ≡ peak_line number mz) }
{
    let mut text = Vec::new(alloc);
    push_peak_line(&mut text, number, mz)?;
    Ok(text)
}

/// Appends the line above the formulas of a peak: its number and its m/z in 10^-12 Da. Without room for it the
/// report stays as it was.
pub fn push_peak_line(report: &mut Vec<u8>, number: u64, mz: u64) -> Result<(), AllocError>
    ensures line { OnOk result (report.new.items ≡ report.old.items ++ peak_line number mz) }
    ensures refused { OnErr result (report.new.items ≡ report.old.items) }
{
    push_line(
        report,
        &[Word::Text(b"peak"), Word::Number(number), Word::Mass(mz)],
    )
}

/// The line of a formula: its text, its mass, the mass of its ion, and how far that is above divisor times m/z. All
/// masses are in 10^-12 Da.
pub fn formula_line(
    alloc: Global,
    formula: &Formula,
    mass: u64,
    ion_mass: i128,
    mz: u64,
    divisor: u32,
) -> Result<Vec<u8>, AllocError>
    requires { IsPrintedMass ion_mass }
    ensures { IfOk result (λ text. text.items ≡ formula_line formula.now mass ion_mass mz divisor) }
{
    let mut text = Vec::new(alloc);
    push_formula_line(&mut text, formula, mass, ion_mass, mz, divisor)?;
    Ok(text)
}

/// Appends the line of a formula, as [`formula_line`] gives it. Without room for it the report stays as it was.
pub fn push_formula_line(
    report: &mut Vec<u8>,
    formula: &Formula,
    mass: u64,
    ion_mass: i128,
    mz: u64,
    divisor: u32,
) -> Result<(), AllocError>
    requires { IsPrintedMass ion_mass }
    ensures line { OnOk result (
        report.new.items ≡ report.old.items ++ formula_line formula.now mass ion_mass mz divisor) }
    ensures refused { OnErr result (report.new.items ≡ report.old.items) }
{
    push_items_line(report, formula.items(), mass, ion_mass, mz, divisor)
}

/// Appends the same of a formula of which these are the items with their counts, in Hill order.
pub fn push_items_line(
    report: &mut Vec<u8>,
    formula: &[(Item, u32)],
    mass: u64,
    ion_mass: i128,
    mz: u64,
    divisor: u32,
) -> Result<(), AllocError>
    requires { IsPrintedMass ion_mass }
    ensures line { OnOk result (
        report.new.items ≡ report.old.items ++ formula_line formula.now mass ion_mass mz divisor) }
    ensures refused { OnErr result (report.new.items ≡ report.old.items) }
{
    let difference = mass_difference(ion_mass, mz, divisor);
    if formula.len() > GROUP || difference.unsigned_abs() > u128::from(u64::MAX) {
        return push_any_line(report, formula, mass, ion_mass, difference);
    }
    let mut room = [0; LINE_ROOM];
    let start = write_line(&mut room, formula, mass, ion_mass, difference);
    report.extend_from_slice(&room[start..])
}

/// Appends the line of a formula of any number of items, word by word.
fn push_any_line(
    report: &mut Vec<u8>,
    formula: &[(Item, u32)],
    mass: u64,
    ion_mass: i128,
    difference: i128,
) -> Result<(), AllocError>
    requires { IsPrintedMass ion_mass }
    ensures line { OnOk result (report.new.items ≡ report.old.items
        ++ line (codes "formula" ∷ printed_text formula.now ∷ mass_text mass ∷ ion_mass_text ion_mass
        ∷ signed_decimal difference ∷ [])) }
    ensures refused { OnErr result (report.new.items ≡ report.old.items) }
{
    push_line(
        report,
        &[
            Word::Text(b"formula"),
            Word::Formula(formula),
            Word::Mass(mass),
            ion_mass_word(ion_mass),
            Word::Difference(difference),
        ],
    )
}

/// Writes the line of a formula of few items at the end of the room, and tells where it begins.
fn write_line(
    room: &mut [u8; LINE_ROOM],
    formula: &[(Item, u32)],
    mass: u64,
    ion_mass: i128,
    difference: i128,
) -> usize
    requires few { length formula.now ≤ 16 }
    requires ion { IsPrintedMass ion_mass }
    requires difference { IsPrintedMass difference }
    ensures within { result ≤ 504 }
    ensures line { drop result room.new
        ≡ line (codes "formula" ∷ printed_text formula.now ∷ mass_text mass ∷ ion_mass_text ion_mass
        ∷ signed_decimal difference ∷ []) }
{
    let numbers = write_masses(mass, ion_mass, difference, room, LINE_ROOM);
    let items = write_group(room, numbers, formula);
    write_text(LINE_WORD, room, items)
}

/// The line of a formula for a peak of this m/z: its text and its mass, the mass of its ion, and how far that is above
/// the adduct's divisor times m/z. All masses are in 10^-12 Da. The ion is defined, and the table has each item.
pub fn decompose_line(
    alloc: Global,
    table: &Table,
    formula: &Formula,
    adduct: &Adduct,
    mz: u64,
) -> Result<Vec<u8>, AllocError>
    requires known { HasItems table.now formula.now }
    requires added_known { HasItems table.now adduct.now.added }
    requires lost_known { HasItems table.now adduct.now.lost }
    requires defined { IsTrue (is_some (ion_of adduct.now formula.now)) }
    ensures { IfOk result (λ text. text.items ≡ decompose_line table.now formula.now adduct.now mz) }
{
    let mut text = Vec::new(alloc);
    push_decompose_line(&mut text, table, formula, adduct, mz)?;
    Ok(text)
}

/// Appends the line of a formula for a peak, as [`decompose_line`] gives it. Without room for it the report stays as it
/// was.
pub fn push_decompose_line(
    report: &mut Vec<u8>,
    table: &Table,
    formula: &Formula,
    adduct: &Adduct,
    mz: u64,
) -> Result<(), AllocError>
    requires known { HasItems table.now formula.now }
    requires added_known { HasItems table.now adduct.now.added }
    requires lost_known { HasItems table.now adduct.now.lost }
    requires defined { IsTrue (is_some (ion_of adduct.now formula.now)) }
    ensures line { OnOk result (
        report.new.items ≡ report.old.items ++ decompose_line table.now formula.now adduct.now mz) }
    ensures refused { OnErr result (report.new.items ≡ report.old.items) }
{
    let mass = formula.mass(table);
    match ion_mass(table, formula, adduct) {
        Some(ion_mass) => {
            push_formula_line(report, formula, mass, ion_mass, mz, adduct.divisor())
        }
        None => unreachable!(),
    }
}

/// How far the mass of an ion is above divisor times m/z, in 10^-12 Da.
pub fn mass_difference(ion_mass: i128, mz: u64, divisor: u32) -> i128
    requires { IsPrintedMass ion_mass }
    ensures { result ≡ mass_difference ion_mass mz divisor }
{
    ion_mass - (u128::from(divisor) * u128::from(mz)) as i128
}
