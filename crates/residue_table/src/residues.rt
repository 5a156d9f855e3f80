//! Residue tables of scaled masses.
ghost use Rattle.std.specs.Prelude.{◌≡◌, ℕ, List, ◌+◌, ◌^◌, ◌<◌, ◌≤◌, ◌↔◌, [], ◌∷◌, length, slice_index, IsTrue, IfOk, IfSome, IsNone};
ghost use Rattle.residue_table.specs.Sums.{AreScaled, Reaches, IsLeastIn, HoldsNowhereIn, HoldsSomewhereIn};
ghost use Rattle.residue_table.specs.Rows.{AreLimited, AreRows, IsRow};

use crate::round_robin::add_mass;
use crate::rows::{Row, UNREACHED};
use outside_ports::Steps;
use std::alloc::{AllocError, Global};
use std::marker::Model;
use std::sync::ledger::Ledger;

/// The most masses of a table.
pub const MAX_MASSES: usize = 20;

/// The greatest last mass of a table, of which its rows have an entry each.
pub const MAX_MODULUS: u64 = 1_000_000;

/// The greatest mass of a table.
pub const MAX_SCALED_MASS: u64 = 100_000_000_000;

/// Which whole numbers are sums of whole multiples of the last masses of a list. It is seen as these masses.
///
/// Level l speaks of the last l masses; level 0 reaches 0 alone.
#[derive(Debug, Drop)]
pub struct Residues {
    masses: Vec<u64>,
    rows: Vec<Row>,
}

impl Model for Residues {
    ghost use Rattle.std.specs.Prelude.{◌≡◌, ℕ, List, length};
    ghost use Rattle.residue_table.specs.Rows.{IsTable};

    ghost Value = { List ℕ };

    ghost view = { λ t. t.masses.items };

    ghost invariant = { λ t. IsTable t.masses.items t.rows.items };
}

impl Residues {
    /// The table of these scaled masses: 1 to 20 of them, falling or equal, the last from 1 to 1,000,000, each at
    /// most 10^11. Its rows are filled by the round robin of Böcker and Lipták (2007).
    pub fn build(alloc: Global, masses: &[u64]) -> Result<Residues, AllocError>
        requires { AreScaled masses.now }
        ensures { IfOk result (λ residues. residues ≡ masses.now) }
    {
        let rows = rows_of(alloc, masses)?;
        let masses = masses.to_vec(alloc)?;
        Ok(Residues { masses, rows })
    }

    /// Whether a number is a sum of whole multiples of the last `level` masses. Takes no memory.
    pub fn reaches(&self, level: usize, value: u64) -> bool
        requires level { level ≤ length self.now }
        requires value { value < 2 ^ 63 }
        ensures { IsTrue result ↔ Reaches self.now level value }
    {
        if level == 0 {
            return value == 0;
        }
        self.rows[level - 1].reaches(value)
    }

    /// The least number from `lo` to `hi` that is a sum of whole multiples of the last `level` masses; None exactly
    /// where there is none. It adds exactly one step, and looks at no more than `min(hi - lo + 1, modulus)` entries,
    /// the modulus being the last mass. Takes no memory.
    pub fn first_in<L: Ledger>(
        &self,
        level: usize,
        lo: u64,
        hi: u64,
        steps: &mut Steps<L>,
    ) -> Option<u64>
        requires level { level ≤ length self.now }
        requires ordered { lo ≤ hi }
        requires range { hi < 2 ^ 63 }
        ensures least { IfSome result (IsLeastIn (Reaches self.now level) lo hi) }
        ensures none { IsNone result ↔ HoldsNowhereIn (Reaches self.now level) lo hi }
        ensures one_step { steps.new ≡ steps.old + 1 }
    {
        steps.tick();
        if level == 0 {
            return if lo == 0 { Some(0) } else { None };
        }
        self.rows[level - 1].first_in(lo, hi)
    }

    /// Whether a number from `lo` to `hi` is a sum of whole multiples of the last `level` masses. It adds exactly one
    /// step. Takes no memory.
    pub fn reaches_in<L: Ledger>(
        &self,
        level: usize,
        lo: u64,
        hi: u64,
        steps: &mut Steps<L>,
    ) -> bool
        requires level { level ≤ length self.now }
        requires ordered { lo ≤ hi }
        requires range { hi < 2 ^ 63 }
        ensures reaches { IsTrue result ↔ HoldsSomewhereIn (Reaches self.now level) lo hi }
        ensures one_step { steps.new ≡ steps.old + 1 }
    {
        steps.tick();
        if level == 0 {
            return lo == 0;
        }
        self.rows[level - 1].reaches_in(lo, hi)
    }
}

/// The rows of the levels from 1 on.
fn rows_of(alloc: Global, masses: &[u64]) -> Result<Vec<Row>, AllocError>
    requires { AreScaled masses.now }
    ensures length { IfOk result (λ rows. length rows.items ≡ length masses.now) }
    ensures rows { IfOk result (λ rows. AreRows masses.now rows.items) }
{
    let last = masses.len() - 1;
    let mut rows = Vec::new(alloc);
    let mut entries = entries_of_last(alloc, masses[last] as usize)?;
    for level in 1..masses.len() {
        let heavier = entries_with(alloc, &entries, masses[last - level])?;
        rows.push(Row::of(alloc, entries)?)?;
        entries = heavier;
    }
    rows.push(Row::of(alloc, entries)?)?;
    Ok(rows)
}

/// The entries of one mass more.
fn entries_with(alloc: Global, entries: &[u64], mass: u64) -> Result<Vec<u64>, AllocError>
    requires some { 1 ≤ length entries.now }
    requires mass { mass ≤ 2 ^ 62 }
    requires limited { AreLimited entries.now }
    ensures length { IfOk result (λ heavier. length heavier.items ≡ length entries.now) }
    ensures row { IfOk result (λ heavier. (masses : List ℕ) → IsRow masses entries.now →
        IsRow (mass ∷ masses) heavier.items) }
{
    let mut heavier = entries.to_vec(alloc)?;
    add_mass(&mut heavier, mass);
    Ok(heavier)
}

/// The entries of the last mass alone, which is the modulus: its multiples are reached.
fn entries_of_last(alloc: Global, modulus: usize) -> Result<Vec<u64>, AllocError>
    requires { 1 ≤ modulus }
    ensures length { IfOk result (λ entries. length entries.items ≡ modulus) }
    ensures from_zero { IfOk result (λ entries. slice_index entries.items 0 ≡ 0) }
    ensures row { IfOk result (λ entries. IsRow (modulus ∷ []) entries.items) }
{
    let mut entries = vec![in alloc; UNREACHED; modulus]?;
    entries[0] = 0;
    Ok(entries)
}
