//! The translation of WebAssembly to asm.js, as a function on modules; and what the check computes of it.
#![tactic(auto)]

pub mod terms_laws;
pub mod worked;
