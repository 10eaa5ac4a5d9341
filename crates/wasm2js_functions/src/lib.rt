//! The functions of asm.js that stand for those of a module of WebAssembly.
#![tactic(auto)]

mod facts;
mod forms;
mod listing;
mod own;
mod printing;
mod wrappers;

pub use listing::push_functions;
pub use printing::print_functions;
