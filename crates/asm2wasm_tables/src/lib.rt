//! The functions of a module of asm.js by name, and its tables laid end to end.
#![tactic(auto)]

mod plan;

pub use plan::{TablePlan, function_slots};
