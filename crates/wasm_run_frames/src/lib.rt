//! The machine that runs flat bodies of WebAssembly (Core 1.0, section 4.2.12): its operands, labels and frames, and how blocks are
//! entered and left.
#![tactic(auto)]

mod carrying;
mod entering;
mod leaving;
mod machine;

pub use entering::{enter_block, enter_function};
pub use leaving::{branch, end_block, give_back};
pub use machine::{Enclosing, Flow, Frame, Label, Machine};
