// Bytes that are written.

ghost use Rattle.std.specs.Prelude.{◌≡◌, ℕ, ◌<◌, ◌≤◌, length, take, OnOk, OnErr};
ghost use Rattle.bridge_io.specs.Outside.{Rose, appended};

use bridge_io::{Failed, Sink, put_all};
use std::alloc::Global;
use std::marker::Model;

/// Bytes: chunks, of which each may stand several times and is held once, and the rest behind them.
#[derive(Drop)]
pub struct SharedBytes {
    pub(crate) chunks: Vec<Vec<u8>>,
    // The chunks, one after the other, by their places.
    pub(crate) order: Vec<usize>,
    pub(crate) rest: Vec<u8>,
}

impl Model for SharedBytes {
    ghost use Rattle.std.specs.Prelude.{ℕ, List, ◌++◌, length};
    ghost use Rattle.shared_bytes.specs.Chunks.{joined, AreBelow};

    ghost Value = { List ℕ };

    ghost view = { λ s. joined s.chunks.items s.order.items ++ s.rest.items };

    ghost invariant = { λ s. AreBelow (length s.chunks.items) s.order.items };
}

impl SharedBytes {
    /// Bytes that all stand once.
    pub fn from_vec(alloc: Global, bytes: Vec<u8>) -> SharedBytes
        ensures { result ≡ bytes.items }
    {
        SharedBytes {
            chunks: Vec::new(alloc),
            order: Vec::new(alloc),
            rest: bytes,
        }
    }

    /// Writes all the bytes, or those of a front of them where a write fails. It takes no memory.
    pub fn put<S: Sink>(&self, sink: &mut S) -> Result<(), Failed>
        requires { (n : ℕ) → S.takes sink.old n }

        ensures takes { (n : ℕ) → S.takes sink.new n }
        ensures faults { S.faults sink.old ≤ S.faults sink.new }
        ensures all { OnOk result (S.told sink.new ≡ appended (S.told sink.old) self.now) }
        ensures failed { OnErr result (Rose (S.faults sink.old) (S.faults sink.new)) }
        ensures front { OnErr result ((n : ℕ) × (n < length self.now) × (S.told sink.new ≡ appended (S.told sink.old) (take n self.now))) }
    {
        for place in &self.order {
            put_all(sink, &self.chunks[*place])?;
        }
        put_all(sink, &self.rest)
    }
}
