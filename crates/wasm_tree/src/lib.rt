//! WebAssembly modules as values, their opcodes, and the numbers and instructions of the binary format.
//!
//! `specs/Views.antt` says which plain module, instruction or list each value stands for.
#![tactic(auto, using(crate::proofs::Slices::inside_trans, crate::proofs::Slices::inside_self, crate::proofs::Slices::stands_trans, crate::proofs::Slices::stands_self, crate::proofs::Slices::stands_last))]

mod code;
mod error;
mod input;
mod instr;
mod leb;
mod module;
mod opcodes;
mod read;

pub use code::{Bytes, Code};
pub use error::ReadError;
pub use input::Input;
pub use instr::Instr;
pub use leb::{leb_s32, leb_s64, leb_u32};
pub use module::{Body, Element, FuncType, GlobalDef, Import, Module, Run, Segment, WasmExport};
pub use opcodes::{opcode, plain_instr};
pub use read::{read_instr, read_numbers};
pub use wasm_lang::{ExportKind, Fault, GlobalType, ImportKind, Limits, MemOp, Row, ValType};
