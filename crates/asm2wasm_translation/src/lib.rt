//! The translation of asm.js to WebAssembly, as a function on modules; and what the check computes of it.
#![tactic(auto)]

pub mod worked;
