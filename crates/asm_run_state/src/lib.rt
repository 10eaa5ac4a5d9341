//! Sessions of asm.js by flat code: where they begin, and the calls of a script.
#![tactic(auto)]

mod first;
mod globals;
mod host_calls;
mod results;
mod running;

pub use first::{first_world, has_heap};
pub use host_calls::{Hosted, host_call};
pub use results::has_result;
pub use running::run;
