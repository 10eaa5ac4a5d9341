//! The functions on words of 64 bits, and of division, that the instructions of a translation to asm.js call.
#![tactic(auto)]

mod division;
pub mod short;
mod wide;

pub use division::division_helpers;
pub use wide::wide_helpers;
