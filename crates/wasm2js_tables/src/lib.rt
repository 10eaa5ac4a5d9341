//! The tables of asm.js that stand for the one table of a module of WebAssembly.
#![tactic(auto)]

mod called;
mod cells;
mod entries;
mod types;

pub use cells::{Cell, MaskedTable};
pub use types::masked;
