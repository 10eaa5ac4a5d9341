//! From WebAssembly to asm.js: what a translated module provides and is made of, and that it is accepted, well formed and called as asked.
#![tactic(auto)]

pub mod accepted_laws;
pub mod called_laws;
pub mod functions_laws;
pub mod limits_laws;
pub mod names_laws;
pub mod parts_laws;
pub mod provided_laws;
