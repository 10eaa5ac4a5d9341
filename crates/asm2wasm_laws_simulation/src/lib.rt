//! From asm.js to WebAssembly: statements, functions and whole sessions of an accepted module, and the code that keeps what they do;
//! the sessions simulate each other within bounds.
#![tactic(auto)]

pub mod bodies_laws;
pub mod functions_laws;
pub mod sessions_laws;
