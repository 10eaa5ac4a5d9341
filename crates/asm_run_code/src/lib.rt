//! Flat code of asm.js on slots of 32-bit words, as a plain function of the module, and the machine that runs it.
#![tactic(auto)]

mod op;
pub mod worked;

pub use op::{Op, Operator};
