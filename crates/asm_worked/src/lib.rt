//! Worked sessions of asm.js, computed from the definition of what a module does, the numbers of a module's members, the functions
//! that calls name, and seeds of keys.
#![tactic(auto)]

pub mod callees;
pub mod members;
pub mod rows;
pub mod seeds;
