//! How many nodes an asm.js module has, and hashers for the labels in its statements.
#![tactic(auto)]

mod counting;
mod labels;

pub use counting::node_count;
pub use labels::label_hashes;
