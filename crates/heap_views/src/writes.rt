//! Writes as values, and a list of them made one after another.
ghost use Rattle.std.specs.Prelude.{◌≡◌};

use crate::heap::Heap;
use heap_lang::ViewKind;

/// The bytes of a word that is written by its place.
#[derive(Clone, Copy, Debug, PartialEq, Eq)]
pub enum WordSize {
    One,
    Two,
    Four,
    Eight,
}

/// One write: through a view of a kind, or by byte places.
#[derive(Clone, Copy)]
pub enum Write<'a> {
    /// Through a view of the kind: the word's low bits into element `index`.
    Set {
        kind: ViewKind,
        index: i64,
        word: u32,
    },
    /// The word's low bits into the bytes from `at` on.
    StoreLe {
        at: u64,
        size: WordSize,
        word: u64,
    },
    /// The bytes into the places from `at` on.
    Put {
        at: u32,
        bytes: &'a [u8],
    },
    /// The `len` bytes from `from` on into the places from `to` on.
    CopyRun {
        to: u32,
        from: u32,
        len: u32,
    },
    /// The byte into the `len` places from `at` on.
    Fill {
        at: u32,
        len: u32,
        byte: u8,
    },
}

impl WordSize {
    ghost use Rattle.heap_views.specs.Writes.{word_bytes};

    /// The bytes of a word of this size.
    pub fn bytes(self) -> u32
        ensures { result ≡ word_bytes self }
    {
        match self {
            WordSize::One => 1,
            WordSize::Two => 2,
            WordSize::Four => 4,
            WordSize::Eight => 8,
        }
    }
}

ghost use Rattle.heap_views.specs.Writes.{after_write, after_writes};

fn apply_one(heap: &mut Heap, write: &Write<'_>)
    ensures { heap.new ≡ after_write write.now heap.old }
{
    match *write {
        Write::Set { kind, index, word } => {
            let _ = heap.view_mut(kind).set(index, word);
        }
        Write::StoreLe { at, size, word } => {
            let _ = heap.store_le(at, size.bytes(), word);
        }
        Write::Put { at, bytes } => {
            let _ = heap.put(at, bytes);
        }
        Write::CopyRun { to, from, len } => {
            let _ = heap.copy_run(to, from, len);
        }
        Write::Fill { at, len, byte } => {
            let _ = heap.fill(at, len, byte);
        }
    }
}

/// Makes the writes in order. Each that passes the end of the heap, or names no element, changes nothing.
pub fn apply(heap: &mut Heap, writes: &[Write<'_>])
    ensures { heap.new ≡ after_writes writes.now heap.old }
{
    for write in writes {
        apply_one(heap, write);
    }
}
