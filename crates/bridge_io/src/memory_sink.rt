// A sink in memory, of which listed writes fail.
ghost use Rattle.std.specs.Prelude.{◌≡◌, ◌⊎◌, ◌+◌, ◌<◌, ◌≤◌, min, [], ◌∷◌, ◌++◌, length, take, Some, Ok, OnOk, OnErr, IfOk, IsErr};
ghost use Rattle.bridge_io.specs.Outside.{raised, Rose, NeverFalls, appended};

use crate::{Failed, Sink};
use std::alloc::{AllocError, Global};
use std::marker::Model;

/// A sink in memory, with room for so many bytes, that takes at most a piece at a time. Its writes are
/// counted from 1 on, and the listed ones fail.
#[derive(Drop)]
pub struct MemSink {
    written: Vec<u8>,
    space: usize,
    most: usize,
    fails: Vec<u64>,
    writes: u64,
    failed: u64,
}

impl Model for MemSink {
    ghost use Rattle.std.specs.Prelude.{◌≤◌, ◌<◌, vec_len, vec_capacity};
    ghost use Rattle.bridge_io.specs.Outside.{last_count};
    ghost use Rattle.bridge_io.specs.InMemory.{SinkState};

    ghost Value = { SinkState };

    ghost view = { λ a. record {
      bytes = a.written.items;
      room = a.space;
      piece = a.most;
      listed = a.fails.items;
      calls = a.writes;
      faults = a.failed;
    } };

    ghost invariant = { λ a. (0 < a.most) × (vec_len a.written ≤ a.space) × (a.space ≤ vec_capacity a.written) × (a.failed ≤ last_count) };
}

impl MemSink {
    /// An empty sink. The room is reserved here, once.
    pub fn new(alloc: Global, room: usize, piece: usize) -> Result<MemSink, AllocError>
        requires { 0 < piece }
        ensures { IfOk result (λ sink. sink ≡
            record { bytes = []; room = room; piece = piece; listed = []; calls = 0; faults = 0 }) }
    {
        Ok(MemSink {
            written: Vec::with_capacity(alloc, room)?,
            space: room,
            most: piece,
            fails: Vec::new(alloc),
            writes: 0,
            failed: 0,
        })
    }

    /// Lists a write that fails. The first is number 1.
    pub fn fail_at(&mut self, call: u64) -> Result<(), AllocError>
        ensures ok { OnOk result (self.new ≡ record self.old { listed = self.old.listed ++ call ∷ [] }) }
        ensures err { OnErr result (self.new ≡ self.old) }
    {
        self.fails.push(call)?;
        Ok(())
    }

    /// What was written.
    pub fn bytes(&self) -> &[u8]
        ensures { result.now ≡ self.now.bytes }
    {
        &self.written
    }
}

impl Sink for MemSink {
    ghost use Rattle.bridge_io.specs.InMemory.{FailsNext};

    ghost told = { λ s. Some s.bytes };

    ghost faults = { λ s. s.faults };

    ghost takes = { λ _ _. Unit {0} };

    ghost calls = { λ s. s.calls };

    fn write(&mut self, bytes: &[u8]) -> Result<usize, Failed>
        ensures faults { NeverFalls self.old.faults self.new.faults }
        ensures calls { self.new.calls ≤ self.old.calls + 1 }
        ensures within { IfOk result (λ n. n ≤ length bytes.now) }
        ensures progress { IfOk result (λ n. 0 < length bytes.now → 0 < n) }
        ensures appends { IfOk result (λ n. Some self.new.bytes ≡ appended (Some self.old.bytes) (take n bytes.now)) }
        ensures failed { OnErr result (Rose self.old.faults self.new.faults) }
        ensures unchanged { OnErr result (self.new.bytes ≡ self.old.bytes) }

        // Exactly the listed writes fail, and those that don't fit.
        ensures refused { let n = min self.old.piece (length bytes.now) in
            FailsNext self.old.listed self.old.calls ⊎ (self.old.room < length self.old.bytes + n) →
            IsErr result
            × (self.new ≡ record self.old { calls = raised 1 self.old.calls; faults = raised 1 self.old.faults }) }
        ensures taken { let n = min self.old.piece (length bytes.now) in
            ¬ (FailsNext self.old.listed self.old.calls) → length self.old.bytes + n ≤ self.old.room →
            (result ≡ Ok n)
            × (self.new ≡ record self.old { bytes = self.old.bytes ++ take n bytes.now; calls = raised 1 self.old.calls }) }
    {
        self.writes = self.writes.saturating_add(1);
        let n = self.most.min(bytes.len());
        if self.fails.contains(&self.writes) || n > self.space - self.written.len() {
            self.failed = self.failed.saturating_add(1);
            return Err(Failed);
        }
        // There is room, so no memory is asked for.
        self.written.extend_from_slice(&bytes[..n]).unwrap();
        Ok(n)
    }
}
