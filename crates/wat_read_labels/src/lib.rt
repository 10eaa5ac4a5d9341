//! The labels of the blocks of a text that are open.
#![tactic(auto)]

mod labels;

pub use labels::Labels;
