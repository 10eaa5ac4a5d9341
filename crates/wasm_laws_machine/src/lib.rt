//! The machine that runs flat bodies of WebAssembly as plain values, and what it stands for.
#![tactic(auto)]

pub mod laws;
