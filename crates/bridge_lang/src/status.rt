//! How a call of `bridge` ends.
ghost use Rattle.std.specs.Prelude.{◌≡◌};
ghost use Rattle.bridge_lang.specs.Statuses.{code_of};

use crate::asm_rows::AsmRow;
use wasm_lang::Row;
use wasm_lang_valid::{Beyond, Rule, Section};
use wasm_link_lang::LinkRow;
use wat_lang::Row as WatRow;

/// Why the bytes are no WebAssembly module that the command takes.
#[derive(Clone, Copy, Debug, PartialEq, Eq)]
pub enum WasmFault {
    /// The bytes aren't of the binary format: why, and the offset in bytes.
    Binary {
        row: Row,
        at: u64,
    },
    /// The module isn't valid: the rule, the section, the item in it, and the instruction in its body.
    Invalid {
        rule: Rule,
        section: Section,
        index: u64,
        instruction: u64,
    },
    /// The module is valid, and outside what the command takes: why, and the number of an import, or a count.
    Outside {
        row: Beyond,
        value: u64,
    },
}

/// How a call of `bridge` ends.
#[derive(Clone, Copy, Debug, PartialEq, Eq)]
pub enum Status {
    /// The job was done, and the whole output is written.
    Done,
    /// The words are no command.
    Usage,
    /// The text is no accepted module of asm.js: why, and the offset in bytes.
    AsmRefused {
        row: AsmRow,
        at: u64,
    },
    /// The bytes are no WebAssembly module that the command takes.
    WasmRefused(WasmFault),
    /// The script isn't in its grammar or doesn't fit the module: the line, from 1.
    ScriptRefused {
        line: u64,
    },
    /// A read failed.
    ReadFault,
    /// A write failed.
    WriteFault,
    /// A file isn't there: the script or second module, or the module.
    Missing {
        script: bool,
    },
    /// A file is longer than 16,777,216 bytes: the script or second module, or the module.
    TooLarge {
        script: bool,
    },
    /// Memory ran out.
    Memory,
    /// The text says no module of WebAssembly: why, and the offset in bytes.
    WatRefused {
        row: WatRow,
        at: u64,
    },
    /// The two modules aren't linked: why, whether it is for the second's sake, and the number of a row, a minimum, an export, an
    /// import, a sum or a function.
    LinkRefused {
        row: LinkRow,
        second: bool,
        value: u64,
    },
}

impl Status {
    /// The exit status of the process, 0 to 11.
    pub fn code(&self) -> u8
        ensures { result ≡ code_of self.now }
    {
        match self {
            Status::Done => 0,
            Status::Usage => 1,
            Status::AsmRefused { .. } => 2,
            Status::WasmRefused(_) => 3,
            Status::ScriptRefused { .. } => 4,
            Status::ReadFault => 5,
            Status::WriteFault => 6,
            Status::Missing { .. } => 7,
            Status::TooLarge { .. } => 8,
            Status::Memory => 9,
            Status::WatRefused { .. } => 10,
            Status::LinkRefused { .. } => 11,
        }
    }
}
