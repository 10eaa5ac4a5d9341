//! The functions and tables of a module of asm.js as a graph: what each leads to, and which stay where some are marked.
#![tactic(auto)]

mod laws;
mod links;
mod marked;
mod numbering;

pub use laws::marks_are_exact;
pub use links::links_of;
pub use marked::{kept_functions, kept_tables};
pub use numbering::Nodes;
