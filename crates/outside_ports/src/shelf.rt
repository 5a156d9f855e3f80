//! A shelf of files, the way by which bytes come in.
ghost use Rattle.std.specs.Prelude.{◌≡◌, ℕ, ◌+◌, ◌≤◌, List, [], length, Option, IfSome, OnOk, IsErrOf, string_bytes};
ghost use Rattle.outside_ports.specs.Files.{Files};
ghost use Rattle.outside_ports.specs.Fetches.{Asks, CountsFetch, GivesFile};

use crate::fault::FetchFault;

/// The greatest limit that a fetch may be given, in bytes.
pub const MAX_LIMIT: u64 = 268_435_456;

/// Files by name.
///
/// A shelf has three meanings: what it holds, where it tells that, the names asked so far, and how
/// many faults came so far.
pub trait Shelf {
    /// The files that it holds, where it tells them.
    ghost held: { Self → Option Files };

    /// The names asked so far, in order.
    ghost asked: { Self → List (List ℕ) };

    /// How many faults came so far, at most 2^64 - 1.
    ghost faults: { Self → ℕ };

    /// Fetches the file `name`, of at most `limit` bytes, into `into`, which is empty before. The limit
    /// is at most [`MAX_LIMIT`].
    ///
    /// `Failed` comes only where the count of faults rose in this call; a name that the shelf
    /// doesn't have is such a fault. `TooLong` comes where the file is longer than the limit;
    /// `into` then holds its first `limit + 1` bytes. `Memory` comes where there is no memory for
    /// the name or the bytes. After each refusal `into` holds first bytes of the file.
    fn fetch(&mut self, name: &String, limit: u64, into: &mut Vec<u8>) -> Result<(), FetchFault>
        requires empty { into.old.items ≡ [] }
        requires limit { limit ≤ MAX_LIMIT }
        ensures held { held self.new ≡ held self.old }
        ensures asked { Asks result
            (asked self.old) (string_bytes name.now) (asked self.new) into.new.items }
        ensures faults { CountsFetch result (faults self.old) (faults self.new) }
        ensures never_falls { faults self.old ≤ faults self.new }
        ensures told { IfSome (held self.old) (λ files.
            GivesFile (files (string_bytes name.now)) limit result into.new.items) }

        // These two hold also where the shelf doesn't tell what it holds.
        ensures within { OnOk result (length into.new.items ≤ limit) }
        ensures too_long { IsErrOf result FetchFault.TooLong → length into.new.items ≡ limit + 1 };
}
