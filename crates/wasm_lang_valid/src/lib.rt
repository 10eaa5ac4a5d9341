//! Validity of WebAssembly modules as the standard defines it: which bodies are typed, which rule a module
//! breaks and where, and the state of one pass over a body.
//!
//! The definitions stand in `specs/`, over the plain modules and instructions of `wasm_lang`. Sections are
//! those of the WebAssembly Core Specification 1.0 where no other version is named.
#![tactic(auto)]

mod laws;
mod profile;
mod rule;
mod section;

pub use laws::{body_laws, item_laws, module_laws, refusal_laws};
pub use profile::{Beyond, Outside, beyond_number};
pub use rule::{Opening, Rule, rule_number};
pub use section::{Section, section_number};
