//! A sink over a writer of the runtime.
ghost use Rattle.std.specs.Prelude.{◌≡◌, ◌≤◌, [], None, IsOk, OnErr};
ghost use Rattle.std.specs.Io.KnownBytes.{Keeps};
ghost use Rattle.outside_ports.specs.Faults.{count_after};
ghost use Rattle.outside_ports.specs.Puts.{CountsPut, PassesOn};

use crate::fault::{Failed, count_after};
use crate::sink::Sink;
use std::io::Write;
use std::marker::Model;

/// A sink over a writer. It doesn't tell what was written, and is seen as the writer and the count
/// of its faults.
///
/// A fault is an error of the writer, or a write that takes nothing. It ends the put. A writer may
/// have a buffer, as std's `BufWriter` has: `finish` writes out what is left in it.
#[derive(Drop)]
pub struct StreamSink<W> {
    to: W,
    faults: u64,
}

impl<W> Model for StreamSink<W> {
    ghost use Rattle.std.specs.Prelude.{ℕ};

    ghost Value = { W × ℕ };

    ghost view = { λ s. (s.to, s.faults) };
}

impl<W: Write + Drop> StreamSink<W> {
    /// A sink over `to` with no fault.
    pub fn new(to: W) -> StreamSink<W>
        ensures { result ≡ (to, 0) }
    {
        StreamSink { to, faults: 0 }
    }

    /// Writes out what the writer has in a buffer of its own. An error of the writer is a fault.
    ///
    /// The contract says that the writer's contents stay as they are, where it tells them. That what was
    /// in the buffer then reaches the device is shown by tests alone.
    pub fn finish(&mut self) -> Result<(), Failed>
        ensures faults { CountsPut result self.old.1 self.new.1 }
        ensures one_more { OnErr result (self.new.1 ≡ count_after self.old.1) }
        ensures never_falls { self.old.1 ≤ self.new.1 }
        ensures kept { Keeps (W.contents self.old.0) (W.contents self.new.0) }
    {
        if self.to.flush().is_err() {
            self.faults = count_after(self.faults);
            return Err(Failed);
        }
        Ok(())
    }
}

impl<W: Write + Drop> Sink for StreamSink<W> {
    ghost written = { λ _. None };

    ghost faults = { λ s. s.1 };

    fn put(&mut self, piece: &[u8]) -> Result<(), Failed>
        ensures faults { CountsPut result self.old.1 self.new.1 }
        ensures one_more { OnErr result (self.new.1 ≡ count_after self.old.1) }
        ensures never_falls { self.old.1 ≤ self.new.1 }
        ensures empty { piece.now ≡ [] → IsOk result }
        ensures passed_on { PassesOn result (W.contents self.old.0) piece.now (W.contents self.new.0) }
    {
        let mut rest = piece;
        while !rest.is_empty() {
            match self.to.write(rest) {
                Ok(0) => {
                    self.faults = count_after(self.faults);
                    return Err(Failed);
                }
                Ok(taken) => rest = &rest[taken..],
                Err(_) => {
                    self.faults = count_after(self.faults);
                    return Err(Failed);
                }
            }
        }
        Ok(())
    }
}
