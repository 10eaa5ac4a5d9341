//! Runs WebAssembly (Core 1.0, chapter 4), counted by reductions.
#![tactic(auto)]

mod calls;
mod exports;
mod first;
mod fits;
mod globals;
mod imported;
mod instance;
mod ranges;
mod session;
mod words;
mod writes;

pub use fits::fits_wasm;
pub use instance::Instance;
