//! Scripts as texts, run on modules of asm.js: which scripts are refused, and what is printed.
#![tactic(auto)]

mod runs;

pub use runs::run_script;
