//! The bytes of a heap.

ghost use Rattle.std.specs.Prelude.{◌≡◌, ◌≤◌, ◌<◌, ◌++◌, length, OnOk};
ghost use Rattle.std.specs.Int.{div_ceil};
ghost use Rattle.script_lang.specs.Texts as spec;
ghost use Rattle.session_print.specs.Parts.{lines_between};

use itoa::Buffer;
use std::alloc::{AllocError, Global};

/// How many bytes a line shows.
const WIDTH: usize = 16;

/// How many lines are tested at once for bytes that aren't 0.
const BLOCK: usize = 256;

// There is no early end, so that many bytes are tested by one instruction.
#[tactic(auto, using(crate::proofs::Zeros::next_byte))]
fn are_zero(bytes: &[u8]) -> bool
    ensures { result ≡ spec.are_zero bytes.now }
{
    let mut bits = 0;
    for byte in bytes {
        bits |= *byte;
    }
    bits == 0
}

/// The line of bytes at a place, if they aren't all 0.
fn push_bytes(alloc: Global, out: &mut Vec<u8>, at: usize, bytes: &[u8]) -> Result<(), AllocError>
    ensures { OnOk result (out.new.items ≡ out.old.items ++ spec.bytes_line at bytes.now) }
{
    if are_zero(bytes) {
        return Ok(());
    }
    let mut digits = Buffer::new();
    let hex_digits = hex::encode(alloc, bytes)?;
    out.extend_from_slice(b"heap ")?;
    out.extend_from_slice(digits.format(at).as_bytes())?;
    out.extend_from_slice(b" ")?;
    out.extend_from_slice(hex_digits.as_bytes())?;
    out.extend_from_slice(b"\n")
}

/// The lines from the one of this number up to another.
#[tactic(auto, using(crate::proofs::Parts::parts))]
fn push_lines(
    alloc: Global,
    out: &mut Vec<u8>,
    heap: &[u8],
    first: usize,
    end: usize,
) -> Result<(), AllocError>
    requires ordered { first ≤ end }
    requires inside { end ≤ div_ceil (length heap.now) 16 }
    ensures { OnOk result (out.new.items ≡ out.old.items ++ lines_between heap.now first end) }
{
    for part in first..end {
        let from = WIDTH * part;
        let to = heap.len().min(from + WIDTH);
        push_bytes(alloc, out, from, &heap[from..to])?;
    }
    Ok(())
}

/// The same, where bytes that are all 0 are passed over at once.
#[tactic(auto, using(crate::proofs::Parts::parts))]
fn push_block(
    alloc: Global,
    out: &mut Vec<u8>,
    heap: &[u8],
    first: usize,
    end: usize,
) -> Result<(), AllocError>
    requires ordered { first < end }
    requires inside { end ≤ div_ceil (length heap.now) 16 }
    ensures { OnOk result (out.new.items ≡ out.old.items ++ lines_between heap.now first end) }
{
    let from = WIDTH * first;
    let to = heap.len().min(WIDTH * end);
    if are_zero(&heap[from..to]) {
        return Ok(());
    }
    push_lines(alloc, out, heap, first, end)
}

/// A line for each sixteen bytes that aren't all 0.
#[tactic(auto, using(crate::proofs::Parts::parts))]
pub fn push_heap(alloc: Global, out: &mut Vec<u8>, heap: &[u8]) -> Result<(), AllocError>
    ensures { OnOk result (out.new.items ≡ out.old.items ++ spec.heap_lines heap.now) }
{
    let lines = heap.len().div_ceil(WIDTH);
    for block in 0..lines.div_ceil(BLOCK) {
        let first = BLOCK * block;
        let end = lines.min(first + BLOCK);
        push_block(alloc, out, heap, first, end)?;
    }
    Ok(())
}
