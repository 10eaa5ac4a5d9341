//! Valid WebAssembly never gets stuck.
#![tactic(auto)]

pub mod laws;
