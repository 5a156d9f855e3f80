//! The counts that a number of atoms may have over the isotopes of an element.

ghost use Rattle.std.specs.Prelude.{◌≡◌, ◌+◌, ◌-◌, ◌*◌, ◌^◌, ◌<◌, ◌≤◌, ◌++◌, length, take, drop, flat_map, IfOk};
ghost use Rattle.multinomial_bounds.specs.Compositions.{compositions};

use std::alloc::AllocError;

/// Appends all counts that begin with those before a place and have so many atoms from there on, in
/// lexicographic order, end to end. The counts from that place on are changed.
pub(crate) fn append_compositions(
    counts: &mut [u32],
    place: usize,
    atoms: u32,
    rows: &mut Vec<u32>,
) -> Result<(), AllocError>
    requires within { place < length counts.old }
    requires small { atoms < 2 ^ 32 - 1 }
    ensures same_front { take place counts.new ≡ take place counts.old }
    ensures appended { IfOk result (λ _. rows.new.items ≡ rows.old.items
        ++ flat_map (λ rest. take place counts.old ++ rest) (compositions (length counts.old - place) atoms)) }
{
    if place + 1 == counts.len() {
        counts[place] = atoms;
        return rows.extend_from_slice(counts);
    }
    for first in 0..=atoms {
        counts[place] = first;
        append_compositions(counts, place + 1, atoms - first, rows)?;
    }
    Ok(())
}

/// The counts at a place, 0 first, of lists of so many counts that stand end to end.
pub fn row_at(counts: &[u32], isotopes: usize, place: usize) -> &[u32]
    requires { place * isotopes + isotopes ≤ length counts.now }
    ensures { result.now ≡ take isotopes (drop (place * isotopes) counts.now) }
{
    let from = place * isotopes;
    &counts[from..from + isotopes]
}
