//! The translation of valid modules of WebAssembly to modules of asm.js.
#![tactic(auto)]

mod memory;
mod printing;
mod translating;

pub use printing::print_module;
pub use translating::{translate, translate_module};
pub use wasm_profile::{heap_for, profile};
pub use wasm2js_tables::{Cell, MaskedTable, masked};
