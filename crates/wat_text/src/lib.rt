//! The text form of WebAssembly: the module that a text says.
#![tactic(auto)]

mod reading;

pub use reading::read;
