//! Each instruction.
ghost use Rattle.std.specs.Prelude.{◌≡◌, ◌+◌, ◌<◌, ◌^◌, false, length, reverse, IfOk};
ghost use Rattle.wasm_lang_valid.specs.Measures.{is_wide_mul_div};
ghost use Rattle.wasm_lang_valid.specs.Typing.{Context};
ghost use Rattle.wasm_tree.specs.Views.{instr_of};
ghost use Rattle.wasm2js_build.specs.Growing.{run, state_of};
ghost use Rattle.wasm2js_actions.specs.Scopes.{Suits, instruction_actions, least_context};

use crate::depths::under;
use crate::operators::{
    binary_at, constant_at, extend_at, extend_signed_at, relation_at, sign_extend_at, size_at,
    unary_at, wide_binary_at, wide_constant_at, wide_relation_at, wide_unary_at, wide_zero_at,
    zero_at,
};
use crate::variables::{global_get, global_set, local_get, local_set, select};
use std::alloc::AllocError;
use wasm_lang::{GlobalType, ValType};
use wasm_tree::Instr;
use wasm2js_accesses::{load_at, store_at, tell_three};
use wasm2js_build::Straight;
use wasm2js_nodes::Fixed;

/// What an instruction is in: how many bytes the memory has, the types of the function's locals, its parameters among them,
/// and of the module's globals.
#[derive(Clone, Copy)]
pub struct InstructionScope<'a> {
    pub bytes: u64,
    pub locals: &'a [ValType],
    pub globals: &'a [GlobalType],
}

/// The statements of one plain instruction, which no product, quotient or remainder of words of 64 bits is; any other one has none. So many operands lie below those of the innermost block, whose types
/// are the stack, the top last.
pub fn instruction(
    straight: &mut Straight,
    scope: &InstructionScope<'_>,
    instr: &Instr,
    below: u64,
    stack: &[ValType],
) -> Result<(), AllocError>
    requires room { below + length stack.now + 2 < 2 ^ 64 }
    requires translated { is_wide_mul_div (instr_of instr.now) ≡ false }
    ensures { (c : Context) → Suits scope.now c → IfOk result (λ _. state_of straight.new ≡ run (state_of straight.old) (instruction_actions scope.now.bytes c (state_of straight.old).waits (instr_of instr.now) below (reverse stack.now))) }
{
    plain_instruction(straight, scope, instr, below, stack)
}

// In a context that has nothing but the scope.
#[tactic(auto, using(wasm2js_build::proofs::Growing::run_joined))]
fn plain_instruction(
    straight: &mut Straight,
    scope: &InstructionScope<'_>,
    instr: &Instr,
    below: u64,
    stack: &[ValType],
) -> Result<(), AllocError>
    requires room { below + length stack.now + 2 < 2 ^ 64 }
    requires translated { is_wide_mul_div (instr_of instr.now) ≡ false }
    ensures { IfOk result (λ _. state_of straight.new ≡ run (state_of straight.old) (instruction_actions scope.now.bytes (least_context scope.now) (state_of straight.old).waits (instr_of instr.now) below (reverse stack.now))) }
{
    let d0 = under(0, below, stack);
    let d1 = under(1, below, stack);
    let d2 = under(2, below, stack);
    let d3 = under(3, below, stack);
    match instr {
        Instr::Select => select(straight, stack, d3),
        Instr::LocalGet(local) => local_get(straight, scope.locals, *local, d0),
        Instr::LocalSet(local) => local_set(straight, scope.locals, *local, d1),
        Instr::LocalTee(local) => local_set(straight, scope.locals, *local, d1),
        Instr::GlobalGet(global) => global_get(straight, scope.globals, *global, d0),
        Instr::GlobalSet(global) => global_set(straight, scope.globals, *global, d1),
        Instr::Load(op, _, offset) => load_at(straight, scope.bytes, *op, *offset, d1),
        Instr::Store(op, _, offset) => store_at(straight, scope.bytes, *op, *offset, d2),
        Instr::MemorySize => size_at(straight, scope.bytes, d0),
        Instr::MemoryCopy => tell_three(straight, Fixed::Copy, d3),
        Instr::MemoryFill => tell_three(straight, Fixed::Fill, d3),
        Instr::Const32(word) => constant_at(straight, *word, d0),
        Instr::Const64(word) => wide_constant_at(straight, *word, d0),
        Instr::Eqz32 => zero_at(straight, d1),
        Instr::Eqz64 => wide_zero_at(straight, d1),
        Instr::Rel32(op) => relation_at(straight, *op, d2),
        Instr::Rel64(op) => wide_relation_at(straight, *op, d2),
        Instr::Un32(op) => unary_at(straight, *op, d1),
        Instr::Un64(op) => wide_unary_at(straight, *op, d1),
        Instr::Bin32(op) => binary_at(straight, *op, d2),
        Instr::Bin64(op) => wide_binary_at(straight, *op, d2),
        Instr::ExtendS => extend_signed_at(straight, d1),
        Instr::ExtendU => extend_at(straight, d1),
        Instr::SignExtend { wide, bits } => sign_extend_at(straight, *wide, *bits, d1),
        _ => Ok(()),
    }
}
