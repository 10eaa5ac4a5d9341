//! Expressions of asm.js, read token by token.
#![tactic(auto)]

mod frame;
mod frames;
mod infix;
mod item;
mod law;
mod operand;
mod reach;
mod resume;
mod state;

pub use law::expressions_end_no_module;
pub use state::{ExprReading, ExprStep};
