//! From a tree with places to the module of asm.js that it says, with the places of its nodes.
#![tactic(auto)]

mod chains;
mod declarations;
mod expressions;
mod labels;
mod lists;
mod nodes;
mod number;
mod statements;
mod whole;
mod wholes;

pub use whole::erased;
