//! The names of a module and of its functions, with the numbers and slots that flat code has for them.
#![tactic(auto)]

mod callee;
mod function;
mod kinds;
mod module;
mod names;
mod numbers;

pub use callee::Callee;
pub use function::FunctionNames;
pub use module::ModuleNames;
pub use numbers::{next, small};
