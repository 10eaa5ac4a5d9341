//! The canonical text of a module of WebAssembly.
#![tactic(auto)]

mod fields;
mod instructions;
mod module;
mod names;
mod output;
mod parts;

pub use module::write;
