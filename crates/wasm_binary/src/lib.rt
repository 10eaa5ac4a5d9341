//! The binary format of WebAssembly (Core 1.0, section 5, with the sign extensions, `memory.copy`,
//! `memory.fill` and the data count section of version 2.0): reading modules.
//!
//! The reader takes the fields of the input in order, and refuses at the first that can't be read. Names,
//! segments and bodies are lent from the input.
#![tactic(auto, using(wasm_tree::proofs::Slices::stands_trans))]

mod fault;
mod reader;
mod sections;

pub use fault::BinFault;
pub use reader::read;
pub use wasm_lang::{Row, row_number};
pub use wasm_tree::{leb_s32, leb_s64, leb_u32};
