//! Which valid modules of WebAssembly can be translated to asm.js, and the lengths that a translation needs.
#![tactic(auto)]

mod heaps;
mod imports;
mod memory;
mod rows;
mod segments;
mod sizes;
mod table;

pub use heaps::heap_for;
pub use imports::{mutable_import, table_import};
pub use memory::{large_memory, memory_bytes, memory_pages};
pub use rows::profile;
pub use segments::{offset_from_import, segment_outside};
pub use table::{padded, table_length};
pub use wasm_validate::{Beyond, Outside, Valid};
