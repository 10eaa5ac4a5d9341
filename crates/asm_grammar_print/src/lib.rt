//! The canonical text of a module of asm.js, at once or function by function: its tokens, with a space only where two neighbours
//! would run together.
#![tactic(auto)]

mod declarations;
mod expressions;
mod output;
mod printing;
mod statements;

pub use output::Output;
pub use printing::{print, put_back, put_front, put_functions};
