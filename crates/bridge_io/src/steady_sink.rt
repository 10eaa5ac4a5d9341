// A sink in memory whose writes never fail.
ghost use Rattle.std.specs.Prelude.{◌≡◌, ◌+◌, ◌<◌, ◌≤◌, min, max, [], ◌++◌, length, take, Some, Ok, OnOk, OnErr, IfOk};
ghost use Rattle.bridge_io.specs.Outside.{raised};

use crate::{Failed, Sink};
use std::alloc::{AllocError, Global};
use std::marker::Model;

/// A sink in memory, with room for so many bytes, that takes at most a piece at a time. What is written
/// has to fit. Its count of faults is 0.
#[derive(Drop)]
pub struct SteadySink {
    written: Vec<u8>,
    space: usize,
    most: usize,
    writes: u64,
}

impl Model for SteadySink {
    ghost use Rattle.std.specs.Prelude.{◌≤◌, ◌<◌, vec_capacity};
    ghost use Rattle.bridge_io.specs.InMemory.{SteadySinkState};

    ghost Value = { SteadySinkState };

    ghost view = { λ a. record {
      bytes = a.written.items;
      room = a.space;
      piece = a.most;
      calls = a.writes;
    } };

    ghost invariant = { λ a. (0 < a.most) × (a.space ≤ vec_capacity a.written) };
}

impl SteadySink {
    /// An empty sink. The room is reserved here.
    pub fn new(alloc: Global, room: usize, piece: usize) -> Result<SteadySink, AllocError>
        requires { 0 < piece }
        ensures { IfOk result (λ sink. sink ≡ record { bytes = []; room = room; piece = piece; calls = 0 }) }
    {
        Ok(SteadySink {
            written: Vec::with_capacity(alloc, room)?,
            space: room,
            most: piece,
            writes: 0,
        })
    }

    /// What was written.
    pub fn bytes(&self) -> &[u8]
        ensures { result.now ≡ self.now.bytes }
    {
        &self.written
    }

    /// Makes room for so many bytes more than were written.
    pub fn ready(&mut self, room: usize) -> Result<(), AllocError>
        ensures ok { OnOk result (self.new ≡
            record self.old { room = max self.old.room (length self.old.bytes + room) }) }
        ensures err { OnErr result (self.new ≡ self.old) }
    {
        self.written.reserve(room)?;
        self.space = self.space.max(self.written.len() + room);
        Ok(())
    }
}

impl Sink for SteadySink {
    ghost told = { λ s. Some s.bytes };

    ghost faults = { λ _. 0 };

    ghost takes = { λ s n. length s.bytes + n ≤ s.room };

    ghost calls = { λ s. s.calls };

    fn write(&mut self, bytes: &[u8]) -> Result<usize, Failed>
        requires { length self.old.bytes + length bytes.now ≤ self.old.room }

        ensures progress { IfOk result (λ n. 0 < length bytes.now → 0 < n) }
        ensures taken { let n = min self.old.piece (length bytes.now) in
            (result ≡ Ok n)
            × (self.new ≡ record self.old { bytes = self.old.bytes ++ take n bytes.now; calls = raised 1 self.old.calls }) }
    {
        self.writes = self.writes.saturating_add(1);
        let n = self.most.min(bytes.len());
        // There is room, so no memory is asked for.
        self.written.extend_from_slice(&bytes[..n]).unwrap();
        Ok(n)
    }
}
