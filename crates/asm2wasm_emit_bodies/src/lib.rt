//! The code of the bodies of functions of asm.js: the translation's, instruction by instruction.
#![tactic(auto)]

mod blocks;
mod functions;
mod statements;

pub use functions::emit_function;
