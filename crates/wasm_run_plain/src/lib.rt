//! What each plain instruction of WebAssembly does (Core 1.0, sections 4.4.1 to 4.4.4).
#![tactic(auto)]

mod laws;
mod plain;

pub use laws::opcodes_have_forms;
pub use plain::do_plain;
pub use wasm_run_operands::{Effect, Operands, State};
