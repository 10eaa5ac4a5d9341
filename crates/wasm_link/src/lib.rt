//! Two modules of WebAssembly over one memory are linked into one.
#![tactic(auto)]

mod linking;
mod standing;
mod validated;

pub use linking::{link_module, linked_with, written_with};
pub use validated::link;
pub use wasm_link_rows::{LinkFault, check};
