//! The code of expressions of asm.js: the translation's, instruction by instruction.
#![tactic(auto)]

mod context;
mod expressions;
mod forms;
mod leaves;
mod meanings;
mod operations;
mod variables;

pub use context::Context;
pub use expressions::emit;
