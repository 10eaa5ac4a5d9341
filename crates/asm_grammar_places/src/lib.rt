//! The places of the nodes of a tree, in text order.
#![tactic(auto)]

mod modules;
mod places;

pub use modules::module_places;
