//! The sections of the module of WebAssembly that an accepted module of asm.js is translated to, but for its code
//! (WebAssembly Core 1.0, section 2.5).
#![tactic(auto)]

mod entries;
mod exporting;
mod heaps;
mod importing;
pub mod laws;
mod signing;
mod typing;
mod variables;

pub use entries::{elements, tables};
pub use exporting::exports;
pub use heaps::{is_heap_len, pages_for};
pub use importing::imports;
pub use signing::functions;
pub use typing::types;
pub use variables::globals;
