//! A sink of bytes in memory.
ghost use Rattle.std.specs.Prelude.{◌≡◌, ◌≢◌, ◌≤◌, ◌<◌, ◌++◌, ◌∷◌, [], length, Some, IfOk, OnOk, OnErr, IsOk, is_err};
ghost use Rattle.outside_ports.specs.Puts.{AppendsPiece, CountsPut};
ghost use Rattle.outside_ports.specs.MemoryBytes.{allowance_of, is_failing_put, sink_after_put};

use crate::fault::{Failed, count_after};
use crate::sink::Sink;
use std::alloc::{AllocError, Global};
use std::marker::Model;

/// A sink that keeps what is written in memory, of which single puts can be made to fail.
///
/// It is seen as the bytes written, the room left, its faults, the number of puts and the puts that
/// are to fail.
#[derive(Drop)]
pub struct MemorySink {
    bytes: Vec<u8>,
    room: u64,
    faults: u64,
    puts: u64,
    failing: Vec<FailingPut>,
}

/// A put that is to take at most so many bytes and fail.
#[derive(Clone, Copy)]
pub struct FailingPut {
    /// The number of the put, from 1.
    pub call: u64,
    /// How many bytes it takes at most.
    pub taken: u64,
}

impl Model for MemorySink {
    ghost use Rattle.std.specs.Prelude.{◌+◌, ◌≤◌, vec_capacity, vec_len};
    ghost use Rattle.outside_ports.specs.MemoryBytes.{BytesInMemory};

    ghost Value = { BytesInMemory };

    ghost view = { λ s. record {
      written = s.bytes.items;
      room = s.room;
      faults = s.faults;
      puts = s.puts;
      failing = s.failing.items;
    } };

    // So a put needs no memory.
    ghost invariant = { λ s. vec_len s.bytes + s.room ≤ vec_capacity s.bytes };
}

impl MemorySink {
    /// A sink with nothing written and no fault, which takes memory for `room` bytes.
    pub fn new(alloc: Global, room: u64) -> Result<MemorySink, AllocError>
        ensures { IfOk result (λ sink.
            sink ≡ record { written = []; room = room; faults = 0; puts = 0; failing = [] }) }
    {
        let bytes = Vec::with_capacity(alloc, room as usize)?;
        Ok(MemorySink {
            bytes,
            room,
            faults: 0,
            puts: 0,
            failing: Vec::new(alloc),
        })
    }

    /// What was written.
    pub fn bytes(&self) -> &[u8]
        ensures { result.now ≡ self.now.written }
    {
        self.bytes.as_slice()
    }

    /// Makes the put number `call` take at most `taken` bytes and fail. Puts of a piece that isn't
    /// empty are numbered from 1. Of two numbers named for one put the later one counts.
    pub fn fail_at(&mut self, call: u64, taken: u64) -> Result<(), AllocError>
        ensures ok { OnOk result (self.new ≡ record self.old {
          failing = self.old.failing ++ record { call = call; taken = taken } ∷ [];
        }) }
        ensures refused { OnErr result (self.new ≡ self.old) }
    {
        self.failing.push(FailingPut { call, taken })?;
        Ok(())
    }
}

/// How many bytes the put of that number may take, if it was named to fail.
fn allowance_of(failing: &[FailingPut], call: u64) -> Option<u64>
    ensures { result ≡ allowance_of call failing.now }
{
    failing
        .iter()
        .rev()
        .find(|put| put.call == call)
        .map(|put| put.taken)
}

impl Sink for MemorySink {
    ghost written = { λ s. Some s.written };

    ghost faults = { λ s. s.faults };

    fn put(&mut self, piece: &[u8]) -> Result<(), Failed>
        ensures written { AppendsPiece result (Some self.old.written) piece.now (Some self.new.written) }
        ensures faults { CountsPut result self.old.faults self.new.faults }
        ensures never_falls { self.old.faults ≤ self.new.faults }
        ensures empty { piece.now ≡ [] → IsOk result }
        ensures untouched { piece.now ≡ [] → self.new ≡ self.old }
        ensures fails { 0 < length piece.now → is_err result ≡ is_failing_put self.old piece.now }
        ensures after { 0 < length piece.now → self.new ≡ sink_after_put self.old piece.now }
    {
        if piece.is_empty() {
            return Ok(());
        }
        self.puts = count_after(self.puts);
        let allowance = allowance_of(&self.failing, self.puts);
        let fits = (piece.len() as u64).min(self.room);
        let taken = fits.min(allowance.unwrap_or(fits));
        self.room -= taken;
        self.bytes
            .extend_from_slice(&piece[..taken as usize])
            .unwrap();
        if allowance.is_some() || (taken as usize) < piece.len() {
            self.faults = count_after(self.faults);
            return Err(Failed);
        }
        Ok(())
    }
}
