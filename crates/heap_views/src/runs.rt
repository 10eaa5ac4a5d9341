//! Runs of bytes, moved by many bytes at once where they can: lines, then words, then single bytes.
ghost use Rattle.std.specs.Prelude.{◌≡◌, ◌+◌, ◌-◌, ◌<◌, ◌≤◌, length, take, drop};
ghost use Rattle.heap_lang.specs.Heap.{with_run, copied, filled};
ghost use Rattle.heap_views.specs.Block.{IsBlock, Becomes};

use crate::block::Block;
use std::simd::Simd;

/// The N bytes of the slice from `at` on.
fn bytes_of<const N: usize>(bytes: &[u8], at: usize) -> [u8; N]
    requires { at + N ≤ length bytes.now }
    ensures { result ≡ take N (drop at bytes.now) }
{
    Simd::<u8, N>::from_slice(&bytes[at..]).to_array()
}

impl Block {
    /// Writes the bytes by N from `at` on, until fewer are left. Gives how many it wrote.
    fn put_by<const N: usize>(&mut self, at: usize, bytes: &[u8]) -> usize
        requires { IsBlock self.old × (0 < N) × (at + length bytes.now ≤ length self.old.cells.bytes) }
        ensures written { (result ≤ length bytes.now) × Becomes self.old self.new (with_run at (take result bytes.now) self.old.cells.bytes) }
        ensures left { length bytes.now < result + N }
    {
        let mut done = 0;
        while bytes.len() - done >= N {
            self.put_bytes(at + done, bytes_of::<N>(bytes, done));
            done += N;
        }
        done
    }

    /// Writes the byte by N into the `len` places from `at` on, until fewer are left. Gives how many it wrote.
    fn fill_by<const N: usize>(&mut self, at: usize, len: usize, byte: u8) -> usize
        requires { IsBlock self.old × (0 < N) × (at + len ≤ length self.old.cells.bytes) }
        ensures written { (result ≤ len) × Becomes self.old self.new (filled at result byte self.old.cells.bytes) }
        ensures left { len < result + N }
    {
        let run = [byte; N];
        let mut done = 0;
        while len - done >= N {
            self.put_bytes(at + done, run);
            done += N;
        }
        done
    }

    fn copy_bytes<const N: usize>(&mut self, to: usize, from: usize)
        requires { IsBlock self.old × (to + N ≤ length self.old.cells.bytes) × (from + N ≤ length self.old.cells.bytes) }
        ensures { Becomes self.old self.new (with_run to (take N (drop from self.old.cells.bytes)) self.old.cells.bytes) }
    {
        let bytes: [u8; N] = self.bytes_at(from);
        self.put_bytes(to, bytes);
    }

    /// Copies the first of `len` bytes by N to places before them, until fewer are left. Gives how many it copied.
    fn copy_up_by<const N: usize>(&mut self, to: usize, from: usize, len: usize) -> usize
        requires { IsBlock self.old × (0 < N) × (to ≤ from) × (from + len ≤ length self.old.cells.bytes) }
        ensures copied { (result ≤ len) × Becomes self.old self.new (copied to from result self.old.cells.bytes) }
        ensures left { len < result + N }
    {
        let mut done = 0;
        while len - done >= N {
            self.copy_bytes::<N>(to + done, from + done);
            done += N;
        }
        done
    }

    /// Copies the last of `len` bytes by N to places after them, until fewer are left. Gives how many are left.
    fn copy_down_by<const N: usize>(&mut self, to: usize, from: usize, len: usize) -> usize
        requires { IsBlock self.old × (0 < N) × (from ≤ to) × (to + len ≤ length self.old.cells.bytes) }
        ensures copied { (result ≤ len) × Becomes self.old self.new (copied (to + result) (from + result) (len - result) self.old.cells.bytes) }
        ensures left { result < N }
    {
        let mut left = len;
        while left >= N {
            left -= N;
            self.copy_bytes::<N>(to + left, from + left);
        }
        left
    }

    /// Writes the bytes from `at` on.
    pub(crate) fn put(&mut self, at: usize, bytes: &[u8])
        requires { IsBlock self.old × (at + length bytes.now ≤ length self.old.cells.bytes) }
        ensures { Becomes self.old self.new (with_run at bytes.now self.old.cells.bytes) }
    {
        let lines = self.put_by::<64>(at, bytes);
        let words = self.put_by::<8>(at + lines, &bytes[lines..]);
        let done = lines + words;
        let _ = self.put_by::<1>(at + done, &bytes[done..]);
    }

    /// Writes the byte into the `len` places from `at` on.
    pub(crate) fn fill(&mut self, at: usize, len: usize, byte: u8)
        requires { IsBlock self.old × (at + len ≤ length self.old.cells.bytes) }
        ensures { Becomes self.old self.new (filled at len byte self.old.cells.bytes) }
    {
        let lines = self.fill_by::<64>(at, len, byte);
        let words = self.fill_by::<8>(at + lines, len - lines, byte);
        let done = lines + words;
        let _ = self.fill_by::<1>(at + done, len - done, byte);
    }

    fn copy_up_short(&mut self, to: usize, from: usize, len: usize)
        requires { IsBlock self.old × (to ≤ from) × (from + len ≤ length self.old.cells.bytes) }
        ensures { Becomes self.old self.new (copied to from len self.old.cells.bytes) }
    {
        let lines = self.copy_up_by::<64>(to, from, len);
        let words = self.copy_up_by::<8>(to + lines, from + lines, len - lines);
        let done = lines + words;
        let _ = self.copy_up_by::<1>(to + done, from + done, len - done);
    }

    fn copy_down_short(&mut self, to: usize, from: usize, len: usize)
        requires { IsBlock self.old × (from ≤ to) × (to + len ≤ length self.old.cells.bytes) }
        ensures { Becomes self.old self.new (copied to from len self.old.cells.bytes) }
    {
        let words = self.copy_down_by::<64>(to, from, len);
        let bytes = self.copy_down_by::<8>(to, from, words);
        let _ = self.copy_down_by::<1>(to, from, bytes);
    }

    // LLVM makes one call of memmove of 16384 bytes, and four moves of 16 bytes of 64.

    /// Copies `len` bytes to places before them, the first byte first.
    pub(crate) fn copy_up(&mut self, to: usize, from: usize, len: usize)
        requires { IsBlock self.old × (to ≤ from) × (from + len ≤ length self.old.cells.bytes) }
        ensures { Becomes self.old self.new (copied to from len self.old.cells.bytes) }
    {
        let pages = self.copy_up_by::<16384>(to, from, len);
        self.copy_up_short(to + pages, from + pages, len - pages);
    }

    /// Copies `len` bytes to places after them, the last byte first.
    pub(crate) fn copy_down(&mut self, to: usize, from: usize, len: usize)
        requires { IsBlock self.old × (from ≤ to) × (to + len ≤ length self.old.cells.bytes) }
        ensures { Becomes self.old self.new (copied to from len self.old.cells.bytes) }
    {
        let left = self.copy_down_by::<16384>(to, from, len);
        self.copy_down_short(to, from, left);
    }
}
