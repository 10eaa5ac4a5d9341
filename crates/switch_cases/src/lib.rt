//! The values of the cases of a switch of asm.js: whether they lie close together, and the clause to which each value goes.
#![tactic(auto)]

mod range;
mod targets;
mod words;

pub use range::CaseRange;
pub use targets::{before_default, target_labels};
pub use words::word_of;
