//! Modules of asm.js with the names of their short forms.
#![tactic(auto)]

mod declarations;
mod functions;
mod left;
mod lists;
mod locals;
mod modules;
mod used;

pub use left::Left;
pub use modules::renamed;
