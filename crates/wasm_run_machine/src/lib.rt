//! Runs of a host's call of WebAssembly, counted by reductions.
#![tactic(auto)]

mod running;
mod steps;

pub use running::{Ran, call_host, run};

mod calls;
mod functions;
mod types;

pub use calls::{call, has_type};
pub use functions::{Callee, Function, function_at};

mod blocks;
mod branches;
mod computing;
mod kinds;

pub use blocks::{end, end_arm, open_block, open_if, open_loop};
pub use branches::{branch_always, branch_by_table, branch_if, leave};
pub use computing::{plain, push_constants};
pub use kinds::{Kind, kind_of};
