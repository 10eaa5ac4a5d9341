//! The operand stack of a run of WebAssembly, what a session changes, and what the plain instructions do to
//! both (Core 1.0, sections 4.4.1 to 4.4.4; of version 2.0 the sign extensions, `memory.copy` and `memory.fill`).
#![tactic(auto)]

pub mod memory;
pub mod numeric;
mod operands;
mod state;
pub mod variables;

pub use operands::Operands;
pub use state::{Effect, State};
