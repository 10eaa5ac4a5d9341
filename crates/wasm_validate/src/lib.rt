//! Validation of WebAssembly modules (WebAssembly Core 1.0, part 3).
#![tactic(auto)]

mod code_section;
mod counts;
mod exports;
mod facts;
mod fault;
mod imports;
mod items;
mod measures;
mod mixed;
mod module;
mod rules;
mod running;
mod valid;

pub use fault::Invalid;
pub use measures::Measures;
pub use module::{Valid, validate};
pub use running::runnable;
pub use wasm_lang_valid::{
    Beyond, Outside, Rule, Section, beyond_number, rule_number, section_number,
};
