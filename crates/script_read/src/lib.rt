//! Scripts as texts: which values, heap bytes, calls and replies the lines of a script say.
#![tactic(auto)]

pub mod bytes_laws;
mod cuts;
mod fault;
mod items;
mod names;
mod numbers;
mod reading;

pub use fault::ScriptFault;
pub use reading::read_script;
