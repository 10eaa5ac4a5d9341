//! WebAssembly as the standard defines it: modules, instructions and the binary format.
//!
//! The definitions stand in `specs/`, over lists and numbers. Sections are those of the WebAssembly Core
//! Specification 1.0 where no other version is named. The types below hold nothing of memory, so the
//! definitions and the crates above use the same ones.
#![tactic(auto)]

mod fault;
mod laws;
mod reading_laws;
mod types;

pub use fault::{Fault, NumberFault, Row, row_number};
pub use laws::{code_laws, number_laws};
pub use reading_laws::module_laws;
pub use types::{ExportKind, GlobalType, ImportKind, Limits, MemOp, ValType};
