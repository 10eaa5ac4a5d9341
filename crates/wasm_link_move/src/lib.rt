//! The code of the bodies of a linked module.
#![tactic(auto)]

mod anew;
mod calls;
mod code;
mod spelling;

pub use code::{Side, moved_code};
pub use spelling::push_code;
