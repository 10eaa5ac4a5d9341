//! Which functions of a module of asm.js can be called at all, and which tables they call.
#![tactic(auto)]

mod reaching;

pub use reaching::{Kept, kept_of};
