//! The names of an asm.js module: the first node that breaks a rule of names (asm.js draft of 18 August 2014, sections 6.1
//! to 6.4).
#![tactic(auto)]

mod expressions;
mod functions;
mod globals;
mod imports;
mod names;
mod refusal;
mod seen;
mod statements;
mod tables;
mod uses;
mod words;

pub use names::check_names;
pub use refusal::AsmRefusal;
