//! Modules that are read, written, and read again.
use crate::modules::{ADDING, LOADING, PADDED};
use crate::rows::holds;
use std::alloc::Global;
use wasm_binary::read;
use wasm_binary_write::write;

/// These bytes are written of the module that the bytes spell.
pub(crate) fn is_rewritten(alloc: Global, bytes: &[u8], wanted: &[u8]) -> bool {
    let Ok(module) = read(alloc, bytes) else {
        return false;
    };
    match write(alloc, &module) {
        Ok(written) => written.as_slice() == wanted,
        Err(_) => false,
    }
}

/// A module, and its shortest spelling, which is written of both.
static SHORTEST: [(&[u8], &[u8]); 3] = [(ADDING, ADDING), (PADDED, ADDING), (LOADING, LOADING)];

#[test]
fn the_shortest_spelling_is_written_and_read_again(rt: HostRuntime) {
    for (number, (bytes, shortest)) in SHORTEST.iter().enumerate() {
        holds(&rt, number, is_rewritten(rt.alloc(), bytes, shortest));
        // the second time of a row counts from 100 on
        let is_again = is_rewritten(rt.alloc(), shortest, shortest);
        holds(&rt, number.saturating_add(100), is_again);
    }
}
