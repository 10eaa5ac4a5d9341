//! What is printed of a run: its events, its end, and the bytes of its heap that aren't all 0.
#![tactic(auto)]

mod heap;
mod lines;
mod observations;

pub use observations::observation_text;
