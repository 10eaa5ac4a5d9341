//! Texts: what they are read as, and where they are refused.
mod heights;
mod refusals;
mod round_trip;

use crate::pieces::{Part, joined};
use asm_text::{TextFault, read};
use std::alloc::Global;

/// A module up to the statements of its one function.
pub(crate) const OPEN: &[u8] = b"function m(){\"use asm\";function f(){";

/// What stands behind those statements.
pub(crate) const CLOSE: &[u8] = b"}return f;}";

fn fault_of(alloc: Global, text: &[u8]) -> Option<TextFault> {
    match read(alloc, text) {
        Ok(_) => None,
        Err(fault) => Some(fault),
    }
}

/// The text of these parts has this fault, or says a module.
fn has_fault(alloc: Global, parts: &[Part<'_>], fault: Option<TextFault>) -> bool {
    match joined(alloc, parts) {
        Ok(text) => fault_of(alloc, &text) == fault,
        Err(_) => false,
    }
}
