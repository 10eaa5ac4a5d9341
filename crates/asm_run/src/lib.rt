//! asm.js: which scripts fit an accepted module, and its sessions.
#![tactic(auto)]

mod calls;
mod exports;
mod fits;
mod globals;
mod linking;
mod ranges;
mod session;
mod writes;

pub use fits::fits_asm;
pub use session::Session;
