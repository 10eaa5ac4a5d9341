//! Runs that are written out.
use crate::rows::holds;
use heap_views::Heap;
use sem_words::{List, Text, TrapKind, Word};
use session_lang::{End, Event};
use session_print::observation_text;
use session_replies::Seen;
use std::alloc::{AllocError, Global};
use std::process::Abort;

/// One event that is seen.
#[derive(Clone, Copy)]
enum Shown {
    Import(&'static [u8], &'static [Word]),
    Result(Word),
    Returned,
}

/// How a session ends, where it does.
#[derive(Clone, Copy)]
enum Last {
    Running,
    Done,
    Memory,
}

/// What is seen: an event, and then perhaps an end; the bytes of the heap that aren't 0, at their places; and what is written of it.
struct Row {
    puts: &'static [(u32, &'static [u8])],
    event: Shown,
    last: Last,
    written: &'static [u8],
}

fn put_event(events: &mut Vec<Event>, alloc: Global, event: Shown) -> Result<(), AllocError> {
    match event {
        Shown::Import(name, words) => {
            let name = Text::from_bytes(alloc, name)?;
            let words = Vec::from_slice(alloc, words)?;
            events.push(Event::Import(name, List::from_vec(words)))?;
        }
        Shown::Result(word) => events.push(Event::Result(word))?,
        Shown::Returned => events.push(Event::Returned)?,
    }
    Ok(())
}

fn end_of(last: Last) -> Option<End> {
    match last {
        Last::Running => None,
        Last::Done => Some(End::Done),
        Last::Memory => Some(End::Trap(TrapKind::Memory)),
    }
}

fn are_put(heap: &mut Heap, puts: &[(u32, &[u8])]) -> bool {
    let mut are_inside = true;
    for (at, bytes) in puts {
        are_inside &= heap.put(*at, bytes);
    }
    are_inside
}

/// What is seen of the row with this heap.
fn seen(alloc: Global, heap: Heap, row: &Row) -> Result<Seen, AllocError> {
    let mut events = Vec::new(alloc);
    put_event(&mut events, alloc, row.event)?;
    Ok(Seen {
        events: List::from_vec(events),
        end: end_of(row.last),
        heap,
    })
}

fn text_is(alloc: Global, seen: &Seen, written: &[u8]) -> bool {
    match observation_text(alloc, seen) {
        Ok(text) => text.as_slice() == written,
        Err(_) => false,
    }
}

/// So is printed what is seen of the row with this heap of zeros.
fn prints(rt: &impl Abort, alloc: Global, heap: Result<Heap, AllocError>, row: &Row) {
    let Ok(mut heap) = heap else {
        return holds(rt, 0, false);
    };
    holds(rt, 1, are_put(&mut heap, row.puts));
    match seen(alloc, heap, row) {
        Ok(seen) => holds(rt, 2, text_is(alloc, &seen, row.written)),
        Err(_) => holds(rt, 3, false),
    }
}

static PAST_THE_END: Row = Row {
    puts: &[(0, &[1, 2, 3, 4, 5])],
    event: Shown::Result(Word::W32(84148994)),
    last: Last::Memory,
    written: b"result 84148994\nend trap 2\nheap 0 01020304050000000000000000000000\n",
};

#[test]
fn a_load_past_the_end(rt: HostRuntime) {
    prints(&rt, rt.alloc(), Heap::new(rt.alloc(), 20), &PAST_THE_END);
}

// The second block of 4,096 bytes has a first and a last line, and the third is 20 bytes.
static ENDS_OF_BLOCKS: Row = Row {
    puts: &[(4096, &[1]), (8191, &[2]), (8208, &[3])],
    event: Shown::Returned,
    last: Last::Done,
    written: b"returned\nend done\nheap 4096 01000000000000000000000000000000\nheap 8176 00000000000000000000000000000002\nheap 8208 03000000\n",
};

#[test]
fn lines_at_the_ends_of_blocks(rt: HostRuntime) {
    prints(
        &rt,
        rt.alloc(),
        Heap::new(rt.alloc(), 8212),
        &ENDS_OF_BLOCKS,
    );
}

static LAST_BYTE: Row = Row {
    puts: &[(8195, &[255])],
    event: Shown::Returned,
    last: Last::Done,
    written: b"returned\nend done\nheap 8192 000000ff\n",
};

#[test]
fn a_byte_after_blocks_of_zeros(rt: HostRuntime) {
    prints(&rt, rt.alloc(), Heap::new(rt.alloc(), 8196), &LAST_BYTE);
}

static WITH_WORDS: Row = Row {
    puts: &[],
    event: Shown::Import(b"abort", &[Word::W32(4294967294), Word::W64(4294967294)]),
    last: Last::Running,
    written: b"import abort -2 4294967294\nstill running\n",
};

#[test]
fn an_import_with_words(rt: HostRuntime) {
    prints(&rt, rt.alloc(), Heap::new(rt.alloc(), 0), &WITH_WORDS);
}

/// What is seen of the row with this heap of zeros is observed with its bytes.
fn observes(alloc: Global, mut heap: Heap, row: &Row) -> Result<bool, AllocError> {
    let are_inside = are_put(&mut heap, row.puts);
    let observation = seen(alloc, heap, row)?.observation(alloc)?;
    Ok(are_inside && observation.heap.as_bytes() == row.written)
}

static AT_AN_END: Row = Row {
    puts: &[(1, &[7])],
    event: Shown::Returned,
    last: Last::Done,
    written: &[0, 7, 0, 0],
};

static BEFORE_AN_END: Row = Row {
    puts: &[],
    event: Shown::Returned,
    last: Last::Running,
    written: &[],
};

// The observation has the heap's bytes at an end alone.
#[test]
fn an_observation_with_the_heap(rt: HostRuntime) {
    let alloc = rt.alloc();
    for (number, row) in [&AT_AN_END, &BEFORE_AN_END].iter().enumerate() {
        match Heap::new(alloc, 4) {
            Ok(heap) => holds(&rt, number, matches!(observes(alloc, heap, row), Ok(true))),
            Err(_) => holds(&rt, 2, false),
        }
    }
}
