//! The statements of asm.js for the body of a function of WebAssembly.
#![tactic(auto)]

mod body;
mod branches;
mod calls;
mod closing;
mod kinds;
mod singles;
mod waiting;
mod walk;

pub use body::body_statements;
pub use singles::Sizes;
