//! The text form of WebAssembly, its grammar: the names of instructions, the table of rules, and the stack of what may still come.
#![tactic(auto)]

mod atoms;
mod bytes;
mod form;
mod keyword;
mod names;
mod parts;
mod rules;
mod sequences;
mod stack;

pub use form::{Access, Form};
pub use names::form_named;
pub use parts::{Lexeme, Mark};
pub use stack::Stack;
