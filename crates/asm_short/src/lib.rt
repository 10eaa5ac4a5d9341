//! The short form of a module of asm.js.
#![tactic(auto)]

mod shortening;

pub use shortening::shorten;
