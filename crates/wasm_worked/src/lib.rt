//! Worked runs of WebAssembly, computed from the definitions: from a module's bytes and a script's text to what is printed,
//! and the functions that calls name.
#![tactic(auto)]

pub mod callees;
pub mod rows;
