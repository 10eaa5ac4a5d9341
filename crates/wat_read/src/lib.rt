//! The module that a text of WebAssembly says, or the first row that refuses it, by two readings of the text.
#![tactic(auto)]

mod functions;
mod judging;
mod making;
mod reading;

pub use reading::module;
