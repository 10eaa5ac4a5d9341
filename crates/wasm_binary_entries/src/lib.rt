//! Reading the entries of a module's sections from the binary format of WebAssembly (Core 1.0, section 5,
//! with the sign extensions, `memory.copy` and `memory.fill` of version 2.0): types, imports, globals,
//! exports, elements, bodies and segments.
//!
//! Each function reads the field at a place of the input, and gives its value and the place after it, or the
//! first fault. Names, segments and bodies are lent from the input.
#![tactic(auto, using(wasm_tree::proofs::Slices::stands_trans, wasm_tree::proofs::Slices::stands_self))]

pub mod bodies;
mod code;
pub mod entries;
pub mod fields;
pub mod imports;
mod room;
