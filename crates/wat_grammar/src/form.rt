//! Forms of instructions: what a name says, without immediates.

ghost use Rattle.std.specs.Prelude.{◌≡◌};
ghost use Rattle.wat_grammar.specs.Views.{op_of};

use sem_words::{Bin, Rel, Un};
use wasm_lang::MemOp;

/// What a load or a store reaches, in few bytes, since each token that is read is kept with its form.
#[derive(Clone, Copy, Debug)]
pub struct Access {
    pub wide: bool,
    /// How many bytes.
    pub size: u8,
    pub signed: bool,
}

impl Access {
    /// The same as instructions of modules have it.
    pub fn op(self) -> MemOp
        ensures { result ≡ op_of self }
    {
        MemOp {
            wide: self.wide,
            size: u32::from(self.size),
            signed: self.signed,
        }
    }
}

/// The form of an instruction (section 2.4).
#[derive(Clone, Copy, Debug)]
pub enum Form {
    Unreachable,
    Nop,
    Block,
    Loop,
    If,
    Else,
    End,
    Br,
    BrIf,
    BrTable,
    Return,
    Call,
    CallIndirect,
    Drop,
    Select,
    LocalGet,
    LocalSet,
    LocalTee,
    GlobalGet,
    GlobalSet,
    Load(Access),
    Store(Access),
    MemorySize,
    MemoryCopy,
    MemoryFill,
    Const32,
    Const64,
    Eqz32,
    Eqz64,
    Rel32(Rel),
    Rel64(Rel),
    Un32(Un),
    Un64(Un),
    Bin32(Bin),
    Bin64(Bin),
    Wrap,
    ExtendS,
    ExtendU,
    SignExtend { wide: bool, bits: u8 },
}
