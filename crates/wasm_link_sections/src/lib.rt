//! The module that two modules of WebAssembly over one memory are linked to, section by section: as a tree, and in the binary format.
#![tactic(auto)]

mod back;
mod bodies;
mod front;
mod linked;
mod start;
mod values;
mod writing;
mod written_back;
mod written_bodies;

pub use linked::made;
pub use writing::written;
