//! The limits of a formula.

/// The greatest number of atoms of an item.
pub const MAX_ATOMS_OF_ITEM: u32 = 10_000;

/// The greatest number of atoms in all.
pub const MAX_ATOMS: u32 = 20_000;

/// The greatest number of items.
pub const MAX_ITEMS: usize = 20;
