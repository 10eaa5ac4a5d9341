//! Which pairs of modules of WebAssembly over one memory can be linked, and the first row that another one meets.
#![tactic(auto)]

mod checking;
mod crowded;
mod fault;
mod limits;
mod memory;
mod profile;
mod rows;

pub use checking::check;
pub use crowded::{has_indirect, locals_count};
pub use fault::LinkFault;
pub use memory::{least_maximum, pages};
