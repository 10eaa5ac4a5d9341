//! asm.js: what stands outside the functions of a module is read token by token: global variables, tables and exports.
#![tactic(auto)]

mod exports;
mod globals;
mod tables;

pub use exports::{ExportPlace, ExportStep, ExportsPlace, export_step};
pub use globals::{GlobalPlace, GlobalStep, global_step};
pub use tables::{FunctionsStep, TablePlace, TableStep, functions_step, table_step};
