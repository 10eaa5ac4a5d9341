//! The heap, and its accesses by byte places.
ghost use Rattle.std.specs.Prelude.{◌≡◌, ◌<◌, ◌^◌, length, replicate, IfOk, IfSome, is_some, option_copied};
ghost use Rattle.std.specs.Bool.{OnFalse};
ghost use Rattle.heap_lang.specs.Numbers.{IsBytes};
ghost use Rattle.heap_lang.specs.Heap.{load, store, load_bytes, store_bytes, run_at, with_run, copied, can_copy, filled, is_inside, place_of, IsWordSize, IsElement, IsHeapLength};

use crate::block::Block;
use crate::numbers::in_range;
use crate::views::{View, ViewMut};
use heap_lang::ViewKind;
use std::alloc::{AllocError, Global};
use std::marker::Model;

/// A list of bytes of a fixed length.
pub struct Heap {
    block: Block,
}

impl Model for Heap {
    ghost use Rattle.std.specs.Prelude.{ℕ, List, length};
    ghost use Rattle.heap_lang.specs.Heap.{IsHeapLength};
    ghost use Rattle.heap_views.specs.Block.{IsBlock};

    ghost Value = { List ℕ };

    ghost view = { λ heap. heap.block.cells.bytes };

    ghost invariant = { λ heap. IsBlock heap.block × IsHeapLength (length heap.block.cells.bytes) };
}

impl Drop for Heap {
    fn drop(self) {
        let Heap { block } = self;
        block.destroy();
    }
}

impl Heap {
    /// A heap of `len` bytes, all 0.
    pub fn new(alloc: Global, len: u32) -> Result<Heap, AllocError>
        requires { IsHeapLength len }
        ensures zeros { IfOk result (λ heap. heap ≡ replicate len 0) }
    {
        let block = Block::new(alloc, len as usize / 4)?;
        Ok(Heap { block })
    }

    /// Reads through a view of the kind.
    pub fn view(&self, kind: ViewKind) -> View<'_>
        ensures bytes { result.heap.now ≡ self.now }
        ensures kind { result.kind ≡ kind }
    {
        View { kind, heap: self }
    }

    /// Reads and writes through a view of the kind. It holds this very heap.
    pub fn view_mut(&mut self, kind: ViewKind) -> ViewMut<'_>
        ensures same_heap { result.heap.ghost_name ≡ self.entry.ghost_name }
        ensures bytes { result.heap.now ≡ self.old }
        ensures kind { result.kind ≡ kind }
    {
        ViewMut { kind, heap: self }
    }

    /// All bytes.
    pub fn bytes(&self) -> &[u8]
        ensures bytes { result.now ≡ self.now }
        ensures are_bytes { IsBytes self.now }
        ensures heap_length { IsHeapLength (length self.now) }
    {
        in_range(self.block.bytes())
    }

    /// Whether `len` bytes from `at` on lie in the heap.
    fn holds(&self, at: u64, len: u64) -> bool
        ensures { result ≡ is_inside at len self.now }
    {
        let total = self.block.len() as u64;
        at <= total && len <= total - at
    }

    /// The `len` bytes from `at` on; `None` where they pass the end.
    pub fn byte_run(&self, at: u32, len: u32) -> Option<&[u8]>
        ensures { option_copied result ≡ run_at at len self.now }
    {
        self.run(u64::from(at), u64::from(len))
    }

    #[tactic(auto, unfolding(heap_lang::specs::Heap::run_at))]
    fn run(&self, at: u64, len: u64) -> Option<&[u8]>
        ensures { option_copied result ≡ run_at at len self.now }
    {
        if self.holds(at, len) {
            let from = at as usize;
            let to = from + len as usize;
            Some(&self.block.bytes()[from..to])
        } else {
            None
        }
    }

    /// The number of the `size` bytes from `at` on; `None` where they pass the end.
    #[tactic(auto, unfolding(heap_lang::specs::Heap::load_bytes, heap_lang::specs::Heap::run_at))]
    pub fn load_le(&self, at: u64, size: u32) -> Option<u64>
        requires { IsWordSize size }
        ensures number { result ≡ load_bytes at size self.now }
        ensures bounded { IfSome result (λ n. n < 256 ^ size) }
    {
        if !self.holds(at, u64::from(size)) {
            return None;
        }
        Some(self.block.load(at as usize, size))
    }

    /// Writes the low bits of the word into the `size` bytes from `at` on.
    /// False, and nothing is changed, where they pass the end.
    #[tactic(auto, unfolding(heap_lang::specs::Heap::store_bytes, heap_lang::specs::Heap::with_run))]
    pub fn store_le(&mut self, at: u64, size: u32, word: u64) -> bool
        requires { IsWordSize size }
        ensures stored { self.new ≡ store_bytes at size word self.old }
        ensures inside { result ≡ is_inside at size self.old }
        ensures unchanged { OnFalse result (self.new ≡ self.old) }
    {
        if !self.holds(at, u64::from(size)) {
            return false;
        }
        self.block.store(at as usize, size, word);
        true
    }

    /// Writes the bytes from `at` on. False, and nothing is changed, where they pass the end.
    #[tactic(auto, unfolding(heap_lang::specs::Heap::with_run))]
    pub fn put(&mut self, at: u32, bytes: &[u8]) -> bool
        ensures stored { self.new ≡ with_run at bytes.now self.old }
        ensures inside { result ≡ is_inside at (length bytes.now) self.old }
        ensures unchanged { OnFalse result (self.new ≡ self.old) }
    {
        if !self.holds(u64::from(at), bytes.len() as u64) {
            return false;
        }
        self.block.put(at as usize, bytes);
        true
    }

    /// Copies `len` bytes from `from` on to the places from `to` on, as the bytes stood before.
    /// False, and nothing is changed, where either range passes the end.
    #[tactic(auto, unfolding(heap_lang::specs::Heap::copied, heap_lang::specs::Heap::with_run))]
    pub fn copy_run(&mut self, to: u32, from: u32, len: u32) -> bool
        ensures copied { self.new ≡ copied to from len self.old }
        ensures inside { result ≡ can_copy to from len self.old }
        ensures unchanged { OnFalse result (self.new ≡ self.old) }
    {
        let size = u64::from(len);
        if !self.holds(u64::from(to), size) || !self.holds(u64::from(from), size) {
            return false;
        }
        if to <= from {
            self.block.copy_up(to as usize, from as usize, len as usize);
        } else {
            self.block
                .copy_down(to as usize, from as usize, len as usize);
        }
        true
    }

    /// Writes the byte into the `len` places from `at` on.
    /// False, and nothing is changed, where they pass the end.
    #[tactic(auto, unfolding(heap_lang::specs::Heap::filled, heap_lang::specs::Heap::with_run))]
    pub fn fill(&mut self, at: u32, len: u32, byte: u8) -> bool
        ensures filled { self.new ≡ filled at len byte self.old }
        ensures inside { result ≡ is_inside at len self.old }
        ensures unchanged { OnFalse result (self.new ≡ self.old) }
    {
        if !self.holds(u64::from(at), u64::from(len)) {
            return false;
        }
        self.block.fill(at as usize, len as usize, byte);
        true
    }

    /// The place of element `index` of the view of the kind; `None` where there is no such element.
    #[tactic(auto, unfolding(heap_lang::specs::Heap::place_of))]
    fn place(&self, kind: ViewKind, index: i64) -> Option<u64>
        ensures { result ≡ place_of kind index self.now }
    {
        let size = u64::from(kind.size());
        if index < 0 || index as u64 >= self.block.len() as u64 {
            return None;
        }
        let at = index as u64 * size;
        if self.holds(at, size) { Some(at) } else { None }
    }

    /// Element `index` of the view of the kind; `None` where it is negative or passes the end.
    #[tactic(auto, using(heap_lang::proofs::HeapLemmas::load_at_place, heap_lang::proofs::HeapLemmas::load_without_place))]
    pub(crate) fn element(&self, kind: ViewKind, index: i64) -> Option<i64>
        ensures element { result ≡ load kind index self.now }
        ensures in_range { IfSome result (IsElement kind) }
    {
        let at = self.place(kind, index)?;
        let number = self.load_le(at, kind.size())?;
        Some(kind.element(number))
    }

    /// Writes the low bits of the word into element `index` of the view of the kind.
    /// False, and nothing is changed, where there is no such element.
    #[tactic(auto, using(heap_lang::proofs::HeapLemmas::set_steps))]
    pub(crate) fn set_element(&mut self, kind: ViewKind, index: i64, word: u32) -> bool
        ensures stored { self.new ≡ store kind index word self.old }
        ensures inside { result ≡ is_some (load kind index self.old) }
        ensures unchanged { OnFalse result (self.new ≡ self.old) }
    {
        match self.place(kind, index) {
            None => false,
            Some(at) => self.store_le(at, kind.size(), u64::from(word)),
        }
    }
}
