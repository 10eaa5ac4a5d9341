//! The flat code of the expressions of asm.js, made from its end.
#![tactic(auto)]

mod forms;
mod operands;
mod output;
mod values;
mod words;

pub use operands::{into, local};
pub use output::Output;
pub use values::{emit_operand, emit_test, emit_value};
