//! From WebAssembly to asm.js: code is kept, instruction by instruction and block by block.
#![tactic(auto)]

pub mod branches_laws;
pub mod computed_laws;
pub mod control_laws;
pub mod instructions_laws;
pub mod loads_laws;
pub mod memory_laws;
pub mod occurring_laws;
pub mod plain_laws;
pub mod runs_laws;
pub mod stores_laws;
pub mod switches_laws;
pub mod variables_laws;
pub mod wide_laws;
