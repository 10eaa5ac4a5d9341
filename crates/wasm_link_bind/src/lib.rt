//! Two modules of WebAssembly over one memory: what their imports are bound to, what each function stands for, and the numbers of functions and
//! globals once they are linked.
#![tactic(auto)]

mod bindings;
mod bound;
mod chains;
mod counts;
mod exported;
mod numbering;
mod numbers;
mod rings;
mod taken;
mod types;

pub use bindings::Bindings;
pub use bound::{bound_to, is_function};
pub use counts::{Sizes, imported_functions};
pub use exported::{Exporting, function_of};
pub use numbering::Numbers;
pub use rings::Cycles;
