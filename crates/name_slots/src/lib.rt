//! Names by their places, each found by a map.
#![tactic(auto)]

mod slots;

pub use slots::Slots;
