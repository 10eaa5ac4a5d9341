//! Bodies of WebAssembly as an interpreter of flat code runs them: the instructions, and where their blocks end.
//!
//! `specs/Places.antt` says what stands at each place, and `laws` how one place follows from another.
#![tactic(auto)]

mod body;
pub mod laws;
pub mod past_laws;
mod target;

pub use body::Body;
pub use target::Target;
