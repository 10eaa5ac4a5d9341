//! What the translation of asm.js to WebAssembly gives without expressions: the numbers of labels, the clause of the value
//! of a switch, and how many locals code names.
//!
//! Each function that gives instructions gives the code that the translation has for its construct. Numbers are `usize` in
//! arguments and have 32 bits in instructions: that they fit is required of the code.
#![tactic(auto)]

mod labels;
mod long;
mod reach;
mod short;
mod values;

pub use labels::{Branch, Labels, Open};
pub use long::{all_further, first_clause, reached};
pub use reach::{reach_of, reaches};
pub use short::dispatch;
