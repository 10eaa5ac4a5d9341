//! The names of short forms of asm.js, by their numbers in the sequence of names.
#![tactic(auto)]

mod excluding;
mod forbidden;
mod free;
mod letters;

pub use excluding::Excluded;
pub use free::first_numbers;
pub use letters::{Spelling, spelled};
