// Bytes that are made, chunk by chunk.

ghost use Rattle.std.specs.Prelude.{◌≡◌, ◌<◌, ◌++◌, [], length, OnOk, IfOk};
ghost use Rattle.shared_bytes.specs.Chunks.{chunk, AreHeld, Grows};

use crate::bytes::SharedBytes;
use indexmap::IndexMap;
use key_hashes::{KeyHashes, NameKey};
use std::alloc::{AllocError, Global};
use std::marker::Model;

/// Bytes that are made. What stands in them several times is held once, where it is told by `push_again`.
#[derive(Drop)]
pub struct Sharing<'a> {
    chunks: Vec<Vec<u8>>,
    order: Vec<usize>,
    places: IndexMap<NameKey<'a>, usize, KeyHashes>,
}

impl<'a> Model for Sharing<'a> {
    ghost use Rattle.std.specs.Prelude.{ℕ, List, length};
    ghost use Rattle.shared_bytes.specs.Chunks.{joined, AreBelow, AreHeld};

    ghost Value = { List ℕ };

    ghost view = { λ s. joined s.chunks.items s.order.items };

    ghost invariant = { λ s. AreBelow (length s.chunks.items) s.order.items × AreHeld s.chunks.items s.places };
}

impl<'a> Sharing<'a> {
    /// No bytes. The hashers are those of the map of what stands several times.
    pub fn new(alloc: Global, hashes: KeyHashes) -> Sharing<'a>
        ensures { result ≡ [] }
    {
        Sharing {
            chunks: Vec::new(alloc),
            order: Vec::new(alloc),
            places: IndexMap::with_hasher(alloc, hashes),
        }
    }

    /// Bytes behind the others.
    pub fn push(&mut self, bytes: Vec<u8>) -> Result<(), AllocError>
        ensures { OnOk result (self.new ≡ self.old ++ bytes.items) }
    {
        let place = self.chunks.len();
        self.chunks.push(bytes)?;
        self.order.push(place)?;
        Ok(())
    }

    /// Bytes before the others.
    pub fn push_front(&mut self, bytes: Vec<u8>) -> Result<(), AllocError>
        ensures { OnOk result (self.new ≡ bytes.items ++ self.old) }
    {
        let place = self.chunks.len();
        self.chunks.push(bytes)?;
        self.order.insert(0, place)?;
        Ok(())
    }

    /// Bytes behind the others, which may have been pushed so before.
    pub fn push_again(&mut self, alloc: Global, bytes: &'a [u8]) -> Result<(), AllocError>
        ensures { OnOk result (self.new ≡ self.old ++ bytes.now) }
    {
        let place = hold(alloc, &mut self.chunks, &mut self.places, bytes)?;
        self.order.push(place)?;
        Ok(())
    }

    /// How many bytes.
    pub fn length(&self) -> u128
        ensures { result ≡ length self.now }
    {
        let mut total = 0;
        for place in &self.order {
            total += self.chunks[*place].len() as u128;
        }
        total
    }

    /// All of them, and the rest behind.
    pub fn followed_by(self, rest: Vec<u8>) -> SharedBytes
        ensures { result ≡ self.entry ++ rest.items }
    {
        SharedBytes {
            chunks: self.chunks,
            order: self.order,
            rest,
        }
    }
}

// The place of the chunk that these bytes are: one that the map has, or one more.
fn hold<'a>(
    alloc: Global,
    chunks: &mut Vec<Vec<u8>>,
    places: &mut IndexMap<NameKey<'a>, usize, KeyHashes>,
    bytes: &'a [u8],
) -> Result<usize, AllocError>
    requires { AreHeld chunks.old.items places.old }
    ensures held { AreHeld chunks.new.items places.new }
    ensures grown { Grows chunks.old.items chunks.new.items }
    ensures place { IfOk result (λ i. (i < length chunks.new.items) × (chunk chunks.new.items i ≡ bytes.now)) }
{
    if let Some(place) = places.get(&NameKey::of(bytes)) {
        return Ok(*place);
    }
    let place = chunks.len();
    chunks.push(Vec::from_slice(alloc, bytes)?)?;
    places.insert(NameKey::of(bytes), place)?;
    Ok(place)
}
