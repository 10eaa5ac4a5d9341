//! What is printed of a WebAssembly module: how many functions, imports and exports it has, and a line for each function.
#![tactic(auto)]

mod counts;
mod functions;
mod types;

pub use counts::counts_line;
pub use functions::listing;
