//! asm.js: a module is read token by token, within the limit on its height.
#![tactic(auto)]

mod fault;
mod parsing;

pub use fault::ParseFault;
pub use parsing::Parser;
