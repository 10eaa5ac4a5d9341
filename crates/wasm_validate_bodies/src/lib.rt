//! Validation of one WebAssembly body in one pass over its flat list of instructions (WebAssembly Core 1.0, section 3.3,
//! and the algorithm of its appendix).
#![tactic(auto)]

mod blocks;
mod body;
mod called;
mod counts;
mod fault;
mod frame;
mod frames;
mod instructions;
mod operands;
mod scope;

pub use body::check_body;
pub use called::{Called, form_of};
pub use counts::{has_mul_div, larger, levels_of};
pub use fault::{BodyFault, Fault};
pub use scope::{Scope, result_of};
