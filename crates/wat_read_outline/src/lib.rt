//! The first reading of a text: what its fields put into the spaces of the module, and the rows that need no more than that.
#![tactic(auto)]

mod outline;

pub use outline::{Begun, Outlined, is_head, outline_of};
