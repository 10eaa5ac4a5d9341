//! What a module of asm.js gives and takes: its exports by the numbers of their functions, the foreign members that it
//! imports as ints, and whether it has a heap.
#![tactic(auto)]

mod exports;
mod facts;
mod globals;
mod heap;

pub use exports::ExportOf;
pub use facts::{Facts, facts_of};
