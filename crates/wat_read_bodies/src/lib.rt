//! The code of a text's functions and constants, from its marks.
#![tactic(auto)]

mod expressions;
mod immediates;
mod instrs;
mod locals;
mod uses;
mod words;

pub use expressions::code;
pub use immediates::{natural_by, optional_by};
pub use instrs::push_instr;
pub use locals::local_runs;
pub use uses::{first_used, used};
