//! The tables of a translation to asm.js, and the functions that stand in them for missing entries.
#![tactic(auto)]

mod members;
mod needs;
mod numbers;
mod stopping;

pub use members::tables;
pub use stopping::push_stubs;
