//! A list of entries of a report in JSON.
ghost use Rattle.std.specs.Prelude.{◌≡◌, ◌∷◌, [], ◌++◌, OnOk, OnErr};
ghost use Rattle.serde.specs.Event.{WritesSeq};

use serde::{Described, Serialize, Serializer};
use std::alloc::{AllocError, Global};
use std::marker::Model;

/// Entries in their order. Contracts see them as a list.
#[derive(Drop)]
pub struct Entries<T: Drop> {
    list: Vec<T>,
}

impl<T: Drop> Model for Entries<T> {
    ghost use Rattle.std.specs.Prelude.{List};

    ghost Value = { List T };

    ghost view = { λ entries. entries.list.items };
}

impl<T: Drop> Entries<T> {
    /// No entries.
    pub fn new(alloc: Global) -> Entries<T>
        ensures { result ≡ [] }
    {
        Entries {
            list: Vec::new(alloc),
        }
    }

    /// The entries.
    pub fn as_slice(&self) -> &[T]
        ensures { result.now ≡ self.now }
    {
        self.list.as_slice()
    }

    /// Appends an entry. Without room for it the entries stay as they were.
    pub fn push(&mut self, entry: T) -> Result<(), AllocError>
        ensures pushed { OnOk result (self.new ≡ self.old ++ entry ∷ []) }
        ensures refused { OnErr result (self.new ≡ self.old) }
    {
        Ok(self.list.push(entry)?)
    }
}

impl<T: Described + Drop> Described for Entries<T> {
    ghost writes = { WritesSeq T.writes };
}

impl<T: Serialize + Drop> Serialize for Entries<T> {
    fn serialize<S: Serializer>(&self, out: &mut S) -> Result<(), S::Error> {
        self.list.serialize(out)
    }
}
