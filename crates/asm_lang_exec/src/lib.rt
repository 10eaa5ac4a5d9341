//! asm.js: what a module does in a session, by a recursion on its trees with a budget; and which
//! scripts fit it.
#![tactic(auto)]

pub mod laws;
