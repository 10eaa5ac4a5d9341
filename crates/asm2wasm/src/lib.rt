//! The translation of accepted modules of asm.js to valid modules of WebAssembly.
#![tactic(auto)]

mod bodies;
mod standing;
mod translating;
mod validated;

pub use asm2wasm_sections::{is_heap_len, pages_for};
pub use asm2wasm_tables::TablePlan;
pub use translating::translate_module;
pub use validated::translate;
