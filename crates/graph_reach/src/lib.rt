//! Which nodes of a graph can be reached.
#![tactic(auto)]

mod marks;
mod reach;

pub use reach::reached;
