//! Instructions that are given one after another, and those of single operators, guards and accesses of asm.js.
//!
//! Each function gives the code that the translation has for its construct. Numbers are `usize` in arguments and have
//! 32 bits in instructions: that they fit is required of the code.
#![tactic(auto)]

mod accesses;
mod calls;
mod guards;
mod operands;
mod operators;
mod output;
mod scratch;

pub use accesses::{aligned, exponent_of, load, store};
pub use calls::{builtin, from_base};
pub use operands::{after_operand, before_operand, link};
pub use operators::operator;
pub use output::Output;
pub use scratch::Scratch;
