//! From terms to statements of asm.js: what the translation from WebAssembly writes, one node after another.
#![tactic(auto)]

mod block;
mod building;
mod forms;
mod learning;
mod light;
mod standing;
mod steps;
mod straight;

pub use block::{Block, function};
pub use building::{expr, int_expr};
pub use standing::{argument, condition, result_number};
pub use steps::Step;
pub use straight::{LateBlock, Straight};
