//! Views of the heap as elements of one kind.
ghost use Rattle.std.specs.Prelude.{◌≡◌, is_some, IfSome};
ghost use Rattle.std.specs.Bool.{OnFalse};
ghost use Rattle.heap_lang.specs.Heap.{load, store, IsElement};

use crate::heap::Heap;
use heap_lang::ViewKind;

/// A view that reads: the heap is lent, and nothing is copied.
#[derive(Clone, Copy)]
pub struct View<'a> {
    pub kind: ViewKind,
    pub heap: &'a Heap,
}

/// A view that reads and writes: the heap is lent, and nothing is copied.
#[derive(Drop)]
pub struct ViewMut<'a> {
    pub kind: ViewKind,
    pub heap: &'a mut Heap,
}

impl View<'_> {
    /// Element `index`; `None` where it is negative or its last byte isn't in the heap.
    pub fn get(&self, index: i64) -> Option<i64>
        ensures element { result ≡ load self.now.kind index self.now.heap.now }
        ensures in_range { IfSome result (IsElement self.now.kind) }
    {
        self.heap.element(self.kind, index)
    }
}

impl ViewMut<'_> {
    /// Element `index`; `None` where it is negative or its last byte isn't in the heap.
    pub fn get(&self, index: i64) -> Option<i64>
        ensures element { result ≡ load self.now.kind index self.now.heap.now }
        ensures in_range { IfSome result (IsElement self.now.kind) }
    {
        self.heap.element(self.kind, index)
    }

    /// Writes the low bits of the word into element `index`; all other bytes stay.
    /// False, and nothing is changed, where `get` would be `None`.
    pub fn set(&mut self, index: i64, word: u32) -> bool
        ensures same_heap { self.new.heap.ghost_name ≡ self.old.heap.ghost_name }
        ensures same_kind { self.new.kind ≡ self.old.kind }
        ensures stored { self.new.heap.now ≡ store self.old.kind index word self.old.heap.now }
        ensures inside { result ≡ is_some (load self.old.kind index self.old.heap.now) }
        ensures unchanged { OnFalse result (self.new.heap.now ≡ self.old.heap.now) }
    {
        self.heap.set_element(self.kind, index, word)
    }
}
