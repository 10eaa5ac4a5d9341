//! WebAssembly: what a valid module does, by the reductions of Core 1.0, chapter 4, counted one by one.
#![tactic(auto)]

mod laws;

pub use laws::fitting_laws;
