//! The flat code of the statements, functions and modules of asm.js.
#![tactic(auto)]

mod jumps;
mod loops;
mod modules;
mod statements;
mod switches;
mod targets;

pub use modules::{Codes, Flat, codes_of};
