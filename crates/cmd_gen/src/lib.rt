//! A text of asm.js of so many functions, and the summary of its translation to WebAssembly and back.
#![tactic(auto)]

mod summing;
mod text;

pub use summing::{Lengths, summary};
pub use text::recipe;
