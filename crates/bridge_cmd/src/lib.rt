//! The commands of Bridge, over files and sinks.
#![tactic(auto)]

mod composed;
mod generating;
mod job;
mod linking;
mod making;
mod playing;
mod refusal;
mod report;
mod runner;
mod top;

pub use asm_validate::Rule as AsmRule;
pub use bridge_lang::{AsmRow, Status, WasmFault, asm_row_number};
pub use composed::round_trips;
pub use top::bridge;
pub use wasm_lang::{Row, row_number};
pub use wasm_validate::{Beyond, Rule, Section, beyond_number, rule_number, section_number};
