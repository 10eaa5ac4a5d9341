//! A block of whole words, all of them written: its numbers, and its runs of bytes.
ghost use Rattle.std.specs.Prelude.{◌≡◌, ◌+◌, ◌*◌, ◌^◌, ◌<◌, ◌≤◌, length, take, drop, replicate, IfOk};
ghost use Rattle.heap_lang.specs.Numbers.{little_endian};
ghost use Rattle.heap_lang.specs.Heap.{with_run, store_bytes, IsWordSize};
ghost use Rattle.heap_views.specs.Block.{IsBlock, Becomes};

use crate::region::{Base, Cells, Deed, free, make};
use std::alloc::{AllocError, Global};

/// The words lie in one block of the allocator.
pub struct Block {
    base: Base,
    words: usize,
    cells: Cells,
    deed: Deed<Global>,
    alloc: Global,
}

fn write_zeros(cells: &mut Cells, base: Base, len: usize)
    requires { (base.ptr ≡ cells.old.at) × (length cells.old.bytes ≡ 0) × (cells.old.spare ≡ len) }
    ensures { (cells.new.at ≡ cells.old.at) × (cells.new.bytes ≡ replicate len 0) × (cells.new.spare ≡ 0) }
{
    let mut at = 0;
    while at < len {
        cells.push(base, at, 0);
        at += 1;
    }
}

impl Block {
    /// A block of so many words, all 0.
    pub(crate) fn new(alloc: Global, words: usize) -> Result<Block, AllocError>
        requires { words * 4 < 2 ^ 63 }
        ensures { IfOk result (λ b. IsBlock b × (b.cells.bytes ≡ replicate (words * 4) 0)) }
    {
        let (base, mut cells, deed) = make(&alloc, words)?;
        write_zeros(&mut cells, base, words * 4);
        Ok(Block {
            base,
            words,
            cells,
            deed,
            alloc,
        })
    }

    pub(crate) fn destroy(self)
        requires { IsBlock self }
    {
        let Block {
            base,
            words,
            cells,
            deed,
            alloc,
        } = self;
        free(&alloc, base, words, cells, deed);
    }

    pub(crate) fn len(&self) -> usize
        requires { IsBlock self.now }
        ensures { result ≡ length self.now.cells.bytes }
    {
        self.words * 4
    }

    /// All bytes.
    pub(crate) fn bytes(&self) -> &[u8]
        requires { IsBlock self.now }
        ensures { result.now ≡ self.now.cells.bytes }
    {
        self.cells.lend(self.base, self.words * 4)
    }

    /// The N bytes from `at` on.
    pub(crate) fn bytes_at<const N: usize>(&self, at: usize) -> [u8; N]
        requires { IsBlock self.now × (at + N ≤ length self.now.cells.bytes) }
        ensures { result ≡ take N (drop at self.now.cells.bytes) }
    {
        self.cells.get(self.base, at)
    }

    /// Writes the N bytes from `at` on.
    #[tactic(auto, using(crate::proofs::BlockLemmas::length_with_run))]
    pub(crate) fn put_bytes<const N: usize>(&mut self, at: usize, bytes: [u8; N])
        requires { IsBlock self.old × (at + N ≤ length self.old.cells.bytes) }
        ensures { Becomes self.old self.new (with_run at bytes.entry self.old.cells.bytes) }
    {
        self.cells.put(self.base, at, bytes);
    }

    /// The number of the `size` bytes from `at` on.
    #[tactic(auto, using(crate::proofs::BlockLemmas::number_1, crate::proofs::BlockLemmas::number_2, crate::proofs::BlockLemmas::number_4, crate::proofs::BlockLemmas::run_length, crate::proofs::BlockLemmas::below_1, crate::proofs::BlockLemmas::below_2, crate::proofs::BlockLemmas::below_4, crate::proofs::BlockLemmas::below_8))]
    pub(crate) fn load(&self, at: usize, size: u32) -> u64
        requires { IsBlock self.now × IsWordSize size × (at + size ≤ length self.now.cells.bytes) }
        ensures number { result ≡ little_endian (take size (drop at self.now.cells.bytes)) }
        ensures bounded { result < 256 ^ size }
    {
        match size {
            1 => u64::from(u8::from_le_bytes(self.bytes_at(at))),
            2 => u64::from(u16::from_le_bytes(self.bytes_at(at))),
            4 => u64::from(u32::from_le_bytes(self.bytes_at(at))),
            _ => self.load_long(at),
        }
    }

    #[tactic(auto, using(crate::proofs::BlockLemmas::number_8, crate::proofs::BlockLemmas::number_4, crate::proofs::BlockLemmas::run_length))]
    fn load_long(&self, at: usize) -> u64
        requires { IsBlock self.now × (at + 8 ≤ length self.now.cells.bytes) }
        ensures { result ≡ little_endian (take 8 (drop at self.now.cells.bytes)) }
    {
        let low = u64::from(u32::from_le_bytes(self.bytes_at(at)));
        let high = u64::from(u32::from_le_bytes(self.bytes_at(at + 4)));
        low + high * 0x1_0000_0000
    }

    /// Writes the low bits of the word into the `size` bytes from `at` on.
    #[tactic(auto, using(crate::proofs::BlockLemmas::stored_1, crate::proofs::BlockLemmas::stored_2, crate::proofs::BlockLemmas::stored_4))]
    pub(crate) fn store(&mut self, at: usize, size: u32, word: u64)
        requires { IsBlock self.old × IsWordSize size × (at + size ≤ length self.old.cells.bytes) }
        ensures { Becomes self.old self.new (store_bytes at size word self.old.cells.bytes) }
    {
        match size {
            1 => self.put_bytes(at, ((word % 0x100) as u8).to_le_bytes()),
            2 => self.put_bytes(at, ((word % 0x1_0000) as u16).to_le_bytes()),
            4 => self.put_bytes(at, ((word % 0x1_0000_0000) as u32).to_le_bytes()),
            _ => self.store_long(at, word),
        }
    }

    #[tactic(auto, using(crate::proofs::BlockLemmas::stored_8))]
    fn store_long(&mut self, at: usize, word: u64)
        requires { IsBlock self.old × (at + 8 ≤ length self.old.cells.bytes) }
        ensures { Becomes self.old self.new (store_bytes at 8 word self.old.cells.bytes) }
    {
        let low = (word % 0x1_0000_0000) as u32;
        let high = (word / 0x1_0000_0000) as u32;
        self.put_bytes(at, low.to_le_bytes());
        self.put_bytes(at + 4, high.to_le_bytes());
    }
}
