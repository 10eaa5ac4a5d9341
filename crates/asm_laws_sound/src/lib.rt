//! Accepted asm.js never goes wrong, and each value of an expression is one of its type.
#![tactic(auto)]

pub mod laws;
pub mod narrow_laws;
pub mod uses_laws;
