//! The names that statements of asm.js use, each with what it is used for.
#![tactic(auto)]

mod expressions;
mod naming;
mod statements;

pub use naming::Use;
pub use statements::uses_of;
