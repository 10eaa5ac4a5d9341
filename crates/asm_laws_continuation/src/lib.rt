//! asm.js: what each construct does, given what comes after it.
#![tactic(auto)]

pub mod laws;
