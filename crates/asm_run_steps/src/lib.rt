//! The machine that runs flat code of asm.js: the words of the functions that run, what a session changes beside them, and what
//! operations do to both.
#![tactic(auto)]

mod accesses;
mod bodies;
mod calls;
mod computing;
mod ended;
mod flow;
mod jumps;
mod linked;
mod machine;
mod operators;
mod steps;
mod words;
mod world;

pub use ended::Ended;
pub use linked::{Function, Linked};
pub use machine::{Caller, Machine};
pub use words::Words;
pub use world::World;
