//! What is done with a heap, and what it answers.
use crate::rows::holds;
use heap_views::{Heap, ViewKind, WordSize, Write, apply};
use std::alloc::AllocError;
use std::process::Abort;

/// What is asked of a heap, and its answer. A write whose last field is false is refused.
enum Step {
    /// All bytes.
    Bytes(&'static [u8]),
    /// So many bytes from a place on; nothing where they pass the end.
    Run(u32, u32, Option<&'static [u8]>),
    /// An element of a view.
    Get(ViewKind, i64, Option<i64>),
    Set(ViewKind, i64, u32, bool),
    /// A word from a place on.
    Load(u64, WordSize, Option<u64>),
    Store(u64, WordSize, u64, bool),
    Put(u32, &'static [u8], bool),
    /// To a place, from a place, so many bytes.
    Copy(u32, u32, u32, bool),
    /// So many bytes from a place on.
    Fill(u32, u32, u8, bool),
    /// These writes, whether they are refused or not.
    Apply(&'static [Write<'static>]),
}

fn run_is(heap: &Heap, at: u32, len: u32, wanted: Option<&[u8]>) -> bool {
    match (heap.byte_run(at, len), wanted) {
        (Some(run), Some(wanted)) => run == wanted,
        (None, None) => true,
        _ => false,
    }
}

fn is_read(heap: &Heap, step: &Step) -> bool {
    match *step {
        Step::Bytes(wanted) => heap.bytes() == wanted,
        Step::Run(at, len, wanted) => run_is(heap, at, len, wanted),
        Step::Get(kind, index, wanted) => heap.view(kind).get(index) == wanted,
        Step::Load(at, size, wanted) => heap.load_le(at, size.bytes()) == wanted,
        _ => false,
    }
}

fn answers(heap: &mut Heap, step: &Step) -> bool {
    match *step {
        Step::Set(kind, index, word, done) => heap.view_mut(kind).set(index, word) == done,
        Step::Store(at, size, word, done) => heap.store_le(at, size.bytes(), word) == done,
        Step::Put(at, bytes, done) => heap.put(at, bytes) == done,
        Step::Copy(to, from, len, done) => heap.copy_run(to, from, len) == done,
        Step::Fill(at, len, byte, done) => heap.fill(at, len, byte) == done,
        Step::Apply(writes) => {
            apply(heap, writes);
            true
        }
        _ => is_read(heap, step),
    }
}

/// The heap answers all steps.
fn plays(rt: &impl Abort, heap: Result<Heap, AllocError>, steps: &[Step]) {
    match heap {
        Ok(mut heap) => {
            for (number, step) in steps.iter().enumerate() {
                holds(rt, number, answers(&mut heap, step));
            }
        }
        Err(_) => panic!(rt; "out of memory"),
    }
}

static THE_END: [Step; 8] = [
    Step::Run(4095, 1, Some(&[0])),
    Step::Run(4095, 2, None),
    Step::Run(4096, 0, Some(&[])),
    Step::Set(ViewKind::U16, 2047, 65535, true),
    Step::Get(ViewKind::I8, 4095, Some(-1)),
    Step::Get(ViewKind::I32, 1024, None),
    Step::Set(ViewKind::I32, 1024, 1, false),
    Step::Set(ViewKind::U8, -1, 1, false),
];

#[test]
fn the_end_of_a_heap(rt: HostRuntime) {
    plays(&rt, Heap::new(rt.alloc(), 4096), &THE_END);
}

static FOUR_BYTES: [Step; 6] = [
    Step::Get(ViewKind::I32, 0, Some(0)),
    Step::Get(ViewKind::I32, 1, None),
    Step::Load(1, WordSize::Four, None),
    Step::Store(1, WordSize::Two, 65534, true),
    Step::Bytes(&[0x00, 0xfe, 0xff, 0x00]),
    Step::Get(ViewKind::I32, 0, Some(16776704)),
];

#[test]
fn four_bytes(rt: HostRuntime) {
    plays(&rt, Heap::new(rt.alloc(), 4), &FOUR_BYTES);
}

static EMPTY: [Step; 7] = [
    Step::Get(ViewKind::I8, 0, None),
    Step::Get(ViewKind::U8, 0, None),
    Step::Get(ViewKind::I16, 0, None),
    Step::Get(ViewKind::U16, 0, None),
    Step::Get(ViewKind::I32, 0, None),
    Step::Get(ViewKind::U32, 0, None),
    Step::Run(0, 0, Some(&[])),
];

#[test]
fn an_empty_heap(rt: HostRuntime) {
    plays(&rt, Heap::new(rt.alloc(), 0), &EMPTY);
}

static BLOCKS: [Step; 11] = [
    Step::Put(0, &[1, 2, 3, 4, 5], true),
    Step::Copy(1, 0, 5, true),
    Step::Run(0, 7, Some(&[1, 1, 2, 3, 4, 5, 0])),
    Step::Copy(0, 1, 5, true),
    Step::Run(0, 7, Some(&[1, 2, 3, 4, 5, 5, 0])),
    Step::Copy(65532, 0, 5, false),
    Step::Copy(65536, 0, 0, true),
    Step::Copy(65537, 0, 0, false),
    Step::Fill(65534, 2, 255, true),
    Step::Fill(65534, 3, 1, false),
    Step::Run(65532, 4, Some(&[0, 0, 255, 255])),
];

#[test]
fn blocks_of_a_page(rt: HostRuntime) {
    plays(&rt, Heap::new(rt.alloc(), 65536), &BLOCKS);
}

const WRITES: &[Write<'static>] = &[
    Write::Set {
        kind: ViewKind::I32,
        index: 0,
        word: 0xfffffffe,
    },
    Write::StoreLe {
        at: 3,
        size: WordSize::Eight,
        word: 0x0807060504030201,
    },
    Write::Put {
        at: 14,
        bytes: &[9, 9, 9],
    },
    Write::CopyRun {
        to: 4,
        from: 0,
        len: 4,
    },
    Write::Fill {
        at: 12,
        len: 4,
        byte: 7,
    },
];

static ALL_KINDS: [Step; 4] = [
    Step::Apply(WRITES),
    Step::Bytes(&[254, 255, 255, 1, 254, 255, 255, 1, 6, 7, 8, 0, 7, 7, 7, 7]),
    Step::Get(ViewKind::I16, 2, Some(-2)),
    Step::Load(8, WordSize::Eight, Some(0x0707070700080706)),
];

#[test]
fn writes_through_views_of_all_kinds(rt: HostRuntime) {
    plays(&rt, Heap::new(rt.alloc(), 16), &ALL_KINDS);
}
