//! Writes a WebAssembly module in the binary format (WebAssembly Core 1.0, chapter 5; of version 2.0 the
//! sign extensions, `memory.copy` and `memory.fill`), each part in its shortest spelling.
//!
//! `specs/Spelling.antt` says which bytes a module's are.
#![tactic(auto)]

mod code;
mod entries;
mod imports;
mod instrs;
mod laws;
mod leb;
mod modules;
mod spell;
mod types;

pub use code::push_locals;
pub use instrs::push_instrs;
pub use laws::spelling_laws;
pub use leb::push_unsigned;
pub use modules::{write, write_shared};
pub use spell::{Spell, push_items, push_sized, put_size};
