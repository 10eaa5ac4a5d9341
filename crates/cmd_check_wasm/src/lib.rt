//! From bytes to a valid module of WebAssembly and its counts, or why they are refused.
#![tactic(auto)]

mod checking;
mod counting;
mod fault;
mod laws;

pub use checking::check_bytes;
pub use counting::counts;
pub use fault::{CheckFault, of_invalid};
pub use laws::one_verdict;
pub use wasm_validate::{rule_number, section_number};
