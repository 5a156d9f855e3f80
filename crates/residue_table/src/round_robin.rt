//! The row of a level from that of the level before, by the round robin of Böcker and Lipták: "A fast and simple
//! algorithm for the money changing problem", Algorithmica 48, 2007.
//!
//! Adding the new mass again and again leads from a residue through a cycle of residues. Along it each entry becomes
//! the one before and the mass, where that is less. The modulus has as many cycles as the greatest common divisor of
//! it and the mass.
ghost use Rattle.std.specs.Prelude.{◌≡◌, ℕ, List, ◌∷◌, ◌+◌, ◌*◌, ◌%◌, ◌^◌, ◌<◌, ◌≤◌, length};
ghost use Rattle.residue_table.specs.Rows.{AreLimited, IsRow};
ghost use Rattle.residue_table.specs.Strides.{IsCarried, IsClosed, IsLowered, KeepsSound, residue_after};

use crate::divisors::common_divisor;

/// Makes the row of some masses that of one mass more.
pub(crate) fn add_mass(entries: &mut [u64], mass: u64)
    requires some { 1 ≤ length entries.old }
    requires mass { mass ≤ 2 ^ 62 }
    requires limited { AreLimited entries.old }
    ensures row { (masses : List ℕ) → IsRow masses entries.old → IsRow (mass ∷ masses) entries.new }
{
    let modulus = entries.len();
    let step = (mass % modulus as u64) as usize;
    let cycles = common_divisor(modulus, step);
    let cycle = modulus / cycles;
    for start in 0..cycles {
        close_cycle(entries, start, step, mass, cycle);
    }
}

/// Goes round the cycle of a residue, and once more where that lowered the entry that it began with.
fn close_cycle(entries: &mut [u64], start: usize, step: usize, mass: u64, cycle: usize)
    requires start { start < length entries.old }
    requires step { step ≡ mass % length entries.old }
    requires mass { mass ≤ 2 ^ 62 }
    requires limited { AreLimited entries.old }
    requires round { residue_after (length entries.old) start step cycle ≡ start }
    ensures length { length entries.new ≡ length entries.old }
    ensures limited { AreLimited entries.new }
    ensures lowered { IsLowered entries.old entries.new }
    ensures closed { IsClosed (length entries.old) start step mass cycle entries.old entries.new }
    ensures sound { KeepsSound mass entries.old entries.new }
{
    let before = entries[start];
    carry(entries, start, step, mass, cycle);
    if entries[start] < before {
        carry(entries, start, step, mass, cycle);
    }
}

/// Carries the entry of a residue on through so many steps: each entry becomes the one before and the mass, where
/// that is less.
fn carry(entries: &mut [u64], start: usize, step: usize, mass: u64, steps: usize)
    requires start { start < length entries.old }
    requires step { step ≡ mass % length entries.old }
    requires mass { mass ≤ 2 ^ 62 }
    requires limited { AreLimited entries.old }
    ensures length { length entries.new ≡ length entries.old }
    ensures limited { AreLimited entries.new }
    ensures lowered { IsLowered entries.old entries.new }
    ensures carried { IsCarried (length entries.old) start step mass steps entries.old entries.new }
    ensures sound { KeepsSound mass entries.old entries.new }
{
    let mut place = start;
    let mut least = entries[start];
    for _turn in 0..steps {
        place = next_residue(place, step, entries.len());
        least = (least + mass).min(entries[place]);
        entries[place] = least;
    }
}

/// The residue one step on.
fn next_residue(place: usize, step: usize, modulus: usize) -> usize
    requires place { place < modulus }
    requires step { step < modulus }
    ensures { result ≡ (place + step) % modulus }
{
    let to_end = modulus - step;
    if place < to_end {
        place + step
    } else {
        place - to_end
    }
}
