//! The variables that a translated function declares.
#![tactic(auto)]

mod names;
mod room;
mod walk;

pub use names::{declared_names, param_names};
