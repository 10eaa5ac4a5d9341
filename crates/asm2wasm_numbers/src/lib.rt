//! The numbers by which the translation of a module of asm.js names its functions, types, globals and table entries, and
//! the places of a function's variables.
#![tactic(auto)]

mod calls;
mod function;
mod module;
mod names;
mod place;
mod signatures;

pub use function::FunctionNumbers;
pub use module::ModuleNumbers;
pub use place::Place;
pub use signatures::Signature;
