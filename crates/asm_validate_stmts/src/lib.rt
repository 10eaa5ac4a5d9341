//! The second phase of asm.js validation: the first node of a module that breaks a rule of types (asm.js draft of 18
//! August 2014, sections 6.1 to 6.8).
#![tactic(auto)]

mod conditions;
mod declarations;
mod functions;
mod phase;
mod statements;
mod tables;

pub use phase::check_types;
