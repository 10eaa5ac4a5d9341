//! The text form of WebAssembly: tokens, grammar, names and rows, the module that a text says, and the canonical text of a
//! module.
//!
//! The definitions stand in `specs/`, over lists, numbers and the modules of `wasm_lang`. Sections are those of the
//! WebAssembly Core Specification 1.0 where no other version is named.
#![tactic(auto)]

mod fault;
mod parts;

pub use fault::{Row, row_number};
pub use parts::{FieldKind, Part, Rule, Space};
