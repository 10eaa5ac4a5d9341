//! From a text of WebAssembly to the shortest spelling of its module, or why there is none.
#![tactic(auto)]

mod checking;
mod fault;
mod laws;
mod making;

pub use checking::check_wat;
pub use fault::TextFault;
pub use laws::one_verdict;
pub use making::spelled;
