//! A module that is written out.
use crate::modules::ADDING;
use crate::rows::holds;
use std::alloc::Global;
use wasm_binary::read;
use wasm_listing::listing;

/// The module that the bytes spell is listed so.
fn is_listed(alloc: Global, bytes: &[u8], wanted: &[u8]) -> bool {
    let Ok(module) = read(alloc, bytes) else {
        return false;
    };
    match listing(alloc, &module) {
        Ok(text) => text.as_slice() == wanted,
        Err(_) => false,
    }
}

#[test]
fn a_sum(rt: HostRuntime) {
    let wanted = b"wasm functions 1 imports 0 exports 1\nfunc 0 (i64 i64) i64 4\n";
    holds(&rt, 0, is_listed(rt.alloc(), ADDING, wanted));
}
