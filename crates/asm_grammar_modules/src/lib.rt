//! asm.js: a module is read token by token.
#![tactic(auto)]

mod ending;
mod heading;
mod module;
mod outside;
mod parts;
mod reading;
mod tall;

pub use reading::{ModuleFed, Reading};
pub use tall::TallModule;
