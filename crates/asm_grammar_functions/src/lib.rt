//! asm.js: a function of a module, read token by token, and the functions of a module with their heights.
#![tactic(auto)]

mod function;
mod law;
mod tall;

pub use function::{FunctionBody, FunctionFed, FunctionReading, Names};
pub use law::functions_end_no_module;
pub use tall::{TallFunction, TallFunctions, leaves};
