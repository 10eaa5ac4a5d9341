//! Two modules of WebAssembly over one memory, from the bytes of the second to those of the linked module, or why there are none.
#![tactic(auto)]

mod fault;
mod linking;

pub use fault::JoinFault;
pub use linking::linked_file;
pub use wasm_link_lang::{LinkRow, Refused};
