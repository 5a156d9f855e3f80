//! Why a claim isn't accepted.

use std::marker::Model;

/// The counts of an isotopologue, one element after another: of each element those of its isotopes that occur, by
/// rising mass number.
#[derive(Drop)]
pub struct IsotopeCounts {
    pub(crate) counts: Vec<u32>,
}

impl Model for IsotopeCounts {
    ghost use Rattle.std.specs.Prelude.{List, ℕ};

    ghost Value = { List ℕ };

    ghost view = { λ c. c.counts.items };
}

impl IsotopeCounts {
    ghost use Rattle.std.specs.Prelude.{◌≡◌};

    /// The counts as a list.
    pub fn as_slice(&self) -> &[u32]
        ensures { result.now ≡ self.now }
    {
        &self.counts
    }
}

/// The first test that a claim fails. A place is the number of members before a member; bounds and totals are in units
/// of 10^-18.
#[derive(Drop)]
pub enum ClaimFault {
    /// The member at this place doesn't come after the one before it, by falling lower bound, ties by counts.
    OutOfOrder {
        place: usize,
    },
    /// The isotopologue of all modes is no member.
    ModeAbsent,
    /// A neighbour of the member at this place is no member, and its upper bound is above the threshold.
    OpenBoundary {
        place: usize,
        neighbour: IsotopeCounts,
        hi: u64,
    },
    /// So many members are marked, which isn't the size.
    SizeDiffers {
        found: u64,
    },
    /// The lower bounds of the marked members have this total, which is below the coverage.
    CoverShort {
        total: u128,
    },
    /// So many of the greatest upper bounds as are one less than the bound have this total, which is the coverage or more.
    BoundTooHigh {
        total: u128,
    },
}
