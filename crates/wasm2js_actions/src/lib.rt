//! The statements of the instructions that compute, and read and write locals, globals and the memory.
//!
//! The operand above d others stands in the variables of number d; what an instruction gives stands where the deepest operand that it
//! takes stood.
#![tactic(auto)]

mod depths;
mod numeric;
mod operators;
mod plain;
mod variables;

pub use plain::{InstructionScope, instruction};
