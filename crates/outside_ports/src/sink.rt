//! A sink of bytes, the way by which bytes go out.
ghost use Rattle.std.specs.Prelude.{◌≡◌, ℕ, ◌≤◌, List, [], Option, IsOk};
ghost use Rattle.outside_ports.specs.Puts.{AppendsPiece, CountsPut};

use crate::fault::Failed;

/// A stream of bytes that is written piece by piece.
///
/// A sink has two meanings: what was written, where it tells that, and how many faults came so far.
pub trait Sink {
    /// The bytes written so far, where it tells them.
    ghost written: { Self → Option (List ℕ) };

    /// How many faults came so far, at most 2^64 - 1.
    ghost faults: { Self → ℕ };

    /// Appends the piece. `Failed` comes only where the count of faults rose in this call, and only
    /// some first bytes of the piece were then appended. A device that takes nothing of a piece
    /// that isn't empty is a fault. The empty piece reaches no device.
    fn put(&mut self, piece: &[u8]) -> Result<(), Failed>
        ensures written { AppendsPiece result (written self.old) piece.now (written self.new) }
        ensures faults { CountsPut result (faults self.old) (faults self.new) }
        ensures never_falls { faults self.old ≤ faults self.new }
        ensures empty { piece.now ≡ [] → IsOk result };
}
