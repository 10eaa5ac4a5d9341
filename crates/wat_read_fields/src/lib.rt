//! What the fields of a text say, in the order of their kinds, by the names of the whole module.
#![tactic(auto)]

mod context;
mod fields;
mod kinds;
mod lists;
mod strings;

pub use context::Context;
pub use lists::{Described, Functions, Listed, Lists};
