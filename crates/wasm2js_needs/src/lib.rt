//! Which helpers a module of WebAssembly asks for, when it is translated to asm.js.
#![tactic(auto)]

mod instructions;
mod needs;

pub use needs::{Needs, needs_of};
