//! The memory of a heap: one block of whole 32-bit words. Only this module has pointers.
ghost use Rattle.std.specs.Prelude.{◌≡◌, ℕ, suc, ◌+◌, ◌*◌, ◌^◌, ◌<◌, ◌≤◌, List, [], ◌∷◌, ◌++◌, length, take, drop, IfOk};
ghost use base.Fml.{ftrue};
ghost use denote.RawPtr.{Ptr};
ghost use Rattle.heap_lang.specs.Heap.{with_run};
ghost use Rattle.heap_views.specs.Region.{cells_own, cells_lent, deed_owns};

use std::alloc::{AllocError, Allocator};
use std::marker::{Model, PhantomData};
use std::slice;

/// Where a block begins. It owns nothing.
#[derive(Clone, Copy)]
pub struct Base {
    ptr: *mut u8,
}

/// The owner of the bytes of a block, and of the room that is left after them. It takes no space.
pub struct Cells {
    mark: PhantomData<*const u8>,
    ghost at: { Ptr },
    ghost bytes: { List ℕ },
    ghost spare: { ℕ },
}

impl Model for Cells {
    ghost also_owns = { λ c. cells_own c.at c.bytes c.spare };

    ghost also_shares = { λ c _ κ. cells_lent c.at c.bytes c.spare κ };
}

/// The right to give the block of so many words back to its allocator. It takes no space.
pub struct Deed<A: Allocator> {
    mark: PhantomData<A>,
    ghost at: { Ptr },
    ghost words: { ℕ },
    ghost alloc: { A },
}

impl<A: Allocator> Model for Deed<A> {
    ghost also_owns = { λ d. deed_owns (A.dealloc_token d.alloc) d.at d.words };

    ghost also_shares = { λ _ _ _. ftrue };
}

/// A block of so many words, in which nothing is written.
pub(crate) fn make<A: Allocator>(
    alloc: &A,
    words: usize,
) -> Result<(Base, Cells, Deed<A>), AllocError>
    requires { words * 4 < 2 ^ 63 }
    ensures { IfOk result (λ r. (r.1.at ≡ r.0.ptr) × (r.1.bytes ≡ []) × (r.1.spare ≡ words * 4) × (r.2.at ≡ r.0.ptr) × (r.2.words ≡ words) × (r.2.alloc ≡ alloc.now)) }
{
    match alloc.allocate(words * 4, 4) {
        Ok(ptr) => {
            let base = Base { ptr };
            Ok((
                base,
                Cells { mark: PhantomData },
                Deed { mark: PhantomData },
            ))
        }
        Err(error) => Err(error),
    }
}

/// Gives the block back.
pub(crate) fn free<A: Allocator>(alloc: &A, base: Base, words: usize, cells: Cells, deed: Deed<A>)
    requires { (cells.at ≡ base.ptr) × (length cells.bytes + cells.spare ≡ words * 4) × (deed.at ≡ base.ptr) × (deed.words ≡ words) × (deed.alloc ≡ alloc.now) }
{
    let Cells { mark: _ } = cells;
    let Deed { mark: _ } = deed;
    unsafe {
        alloc.deallocate(base.ptr, words * 4, 4);
    }
}

impl Cells {
    /// Writes the first byte of the room that is left.
    pub(crate) fn push(&mut self, base: Base, at: usize, byte: u8)
        requires { (base.ptr ≡ self.old.at) × (at ≡ length self.old.bytes) × (0 < self.old.spare) }
        ensures { (self.new.at ≡ self.old.at) × (self.new.bytes ≡ self.old.bytes ++ byte ∷ []) × (self.old.spare ≡ suc self.new.spare) }
    {
        unsafe { *base.ptr.add(at) = byte }
    }

    /// All bytes.
    pub(crate) fn lend(&self, base: Base, len: usize) -> &[u8]
        requires { (base.ptr ≡ self.now.at) × (len ≡ length self.now.bytes) }
        ensures { result.now ≡ self.now.bytes }
    {
        unsafe { slice::from_raw_parts(base.ptr, len) }
    }

    /// Reads N bytes at once.
    pub(crate) fn get<const N: usize>(&self, base: Base, at: usize) -> [u8; N]
        requires { (base.ptr ≡ self.now.at) × (at + N ≤ length self.now.bytes) }
        ensures { result ≡ take N (drop at self.now.bytes) }
    {
        unsafe { *(base.ptr.add(at) as *const [u8; N]) }
    }

    /// Writes N bytes at once.
    pub(crate) fn put<const N: usize>(&mut self, base: Base, at: usize, bytes: [u8; N])
        requires { (base.ptr ≡ self.old.at) × (at + N ≤ length self.old.bytes) }
        ensures { (self.new.at ≡ self.old.at) × (self.new.spare ≡ self.old.spare) × (self.new.bytes ≡ with_run at bytes.entry self.old.bytes) }
    {
        unsafe { *(base.ptr.add(at) as *mut [u8; N]) = bytes }
    }
}
