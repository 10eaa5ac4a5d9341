//! Bytes that are put into the memory.
ghost use Rattle.std.specs.Prelude.{◌≡◌, ◌∷◌, [], List, map};
ghost use Rattle.heap_lang.specs.Heap.{with_run};
ghost use Rattle.session_lang.specs.Observation.{EventPlain};
ghost use Rattle.session_lang.specs.Imports.{Replies};
ghost use Rattle.wasm_tree.specs.Views.{segment_of};
ghost use Rattle.wasm_lang_exec.specs.Session as session;
ghost use Rattle.wasm_run_operands.specs.Effects.{store_of};
ghost use Rattle.wasm_run_start.specs.Fitting.{run_fits};

use crate::values::{is_within, offset_of};
use heap_views::Heap;
use wasm_run_operands::State;
use wasm_tree::Segment;

// Whether the bytes of one segment are in the memory.
fn run_fits(state: &State, segment: &Segment<'_>) -> bool
    ensures { result ≡ run_fits state.now.globals.items state.now.memory (segment_of segment.now) }
{
    let place = offset_of(&state.globals, segment.offset.as_slice());
    is_within(
        place,
        segment.bytes.as_bytes().len(),
        state.memory.bytes().len(),
    )
}

/// Whether the bytes of all segments are in the memory.
pub fn bytes_fit(state: &State, segments: &[Segment<'_>]) -> bool
    ensures { (events : List EventPlain) (replies : Replies) → result ≡ session.bytes_fit (store_of state.now events replies) (map segment_of segments.now) }
{
    for segment in segments {
        if !run_fits(state, segment) {
            return false;
        }
    }
    true
}

// A place of 2^32 or more is past the end of every memory.
#[tactic(auto, using(session_replies::proofs::Far::far_write))]
fn put_run(memory: &mut Heap, place: u64, bytes: &[u8])
    ensures { memory.new ≡ with_run place bytes.now memory.old }
{
    let _bytes = memory.bytes();
    if place < 1 << 32 {
        let _ = memory.put(place as u32, bytes);
    }
}

// Puts the bytes of one segment into the memory.
fn put_segment(state: &mut State, segment: &Segment<'_>)
    ensures { (events : List EventPlain) (replies : Replies) → store_of state.new events replies ≡ session.with_bytes (segment_of segment.now ∷ []) (store_of state.old events replies) }
{
    let place = offset_of(&state.globals, segment.offset.as_slice());
    put_run(&mut state.memory, place, segment.bytes.as_bytes());
}

/// Puts the bytes of all segments into the memory.
pub fn put_bytes(state: &mut State, segments: &[Segment<'_>])
    ensures { (events : List EventPlain) (replies : Replies) → store_of state.new events replies ≡ session.with_bytes (map segment_of segments.now) (store_of state.old events replies) }
{
    for segment in segments {
        put_segment(state, segment);
    }
}
