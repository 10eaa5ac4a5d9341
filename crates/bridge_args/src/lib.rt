//! The words of a command line, read by `clap` as one flat command.
#![tactic(auto)]

mod asked;
mod command;
mod fault;
mod functions;
mod heap;
mod numbers;

pub use asked::{Action, Asked, Running, read_words};
pub use fault::WordsFault;
pub use functions::FunctionCount;
pub use heap::HeapLength;
