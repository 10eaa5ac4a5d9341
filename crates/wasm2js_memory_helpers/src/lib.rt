//! The functions on the memory that the instructions of a translation to asm.js call, and all functions that they call.
#![tactic(auto)]

mod access;
mod copying;
mod filling;
mod putting;
mod runs;
mod whole;

pub use whole::push_helpers;
