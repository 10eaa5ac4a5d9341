//! The kinds of instructions.
ghost use Rattle.wasm_tree.specs.Views.{instr_of};
ghost use Rattle.wasm2js_bodies.specs.Kinds.{IsKind};

use sem_words::List;
use wasm_lang::ValType;
use wasm_tree::Instr;

/// An instruction as a walk over a body tells it apart.
#[derive(Drop)]
pub enum Kind<'a> {
    Plain,
    Unreachable,
    Block(Option<ValType>),
    Loop(Option<ValType>),
    If(Option<ValType>),
    Else,
    End,
    Br(u32),
    BrIf(u32),
    BrTable(&'a List<u32>, u32),
    Return,
    Call(u32),
    CallIndirect(u32),
}

/// The kind of an instruction.
pub fn kind_of(instr: &Instr) -> Kind<'_>
    ensures { IsKind result (instr_of instr.now) }
{
    match instr {
        Instr::Unreachable => Kind::Unreachable,
        Instr::Block(result) => Kind::Block(*result),
        Instr::Loop(result) => Kind::Loop(*result),
        Instr::If(result) => Kind::If(*result),
        Instr::Else => Kind::Else,
        Instr::End => Kind::End,
        Instr::Br(label) => Kind::Br(*label),
        Instr::BrIf(label) => Kind::BrIf(*label),
        Instr::BrTable(labels, default) => Kind::BrTable(labels, *default),
        Instr::Return => Kind::Return,
        Instr::Call(function) => Kind::Call(*function),
        Instr::CallIndirect(number) => Kind::CallIndirect(*number),
        _ => Kind::Plain,
    }
}
