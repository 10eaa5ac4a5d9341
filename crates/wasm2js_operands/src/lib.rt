//! The types of a body's operands, from one instruction to the next.
#![tactic(auto)]

mod after;
mod operands;
mod scope;

pub use after::{after_call, after_plain};
pub use operands::{add, remove, under};
pub use scope::BodyScope;
