//! The lines of a script that give values to globals, found by their names.
#![tactic(auto)]

mod global_lines;

pub use global_lines::Lines;
