//! Each plain instruction.
ghost use Rattle.std.specs.Prelude.{◌≡◌, List, IfOk};
ghost use Rattle.session_lang.specs.Observation.{EventPlain};
ghost use Rattle.session_lang.specs.Imports.{Replies};
ghost use Rattle.wasm_tree.specs.Views.{instr_of};
ghost use Rattle.wasm_run_operands.specs.Effects.{Keeps, effect_of, store_of};
ghost use Rattle.wasm_run_plain.specs.Forms.{IsForm, instruction_effect};

use sem_words::Word;
use std::alloc::AllocError;
use wasm_run_operands::{Effect, Operands, State, memory, numeric, variables};
use wasm_tree::Instr;

/// Does one instruction. One that isn't plain sticks. `Err` is want of memory for an operand: then
/// nothing is promised of the block's operands, the locals and the state.
pub fn do_plain(
    instr: &Instr,
    operands: &mut Operands,
    locals: &mut [Word],
    state: &mut State,
) -> Result<Effect, AllocError>
    requires { IsForm (instr_of instr.now) }
    ensures effect { IfOk result (λ effect. (events : List EventPlain) (replies : Replies) →
        effect_of effect operands.new.values locals.new (store_of state.new events replies)
        ≡ instruction_effect (instr_of instr.now) operands.old.values locals.old (store_of state.old events replies)) }
    ensures keeps { IfOk result (λ effect. (events : List EventPlain) (replies : Replies) →
        Keeps effect (store_of state.new events replies) (store_of state.old events replies)) }
    ensures below { operands.new.below ≡ operands.old.below }
{
    match instr {
        Instr::Nop => Ok(Effect::Goes),
        Instr::Drop => Ok(variables::drop_operand(operands)),
        Instr::Select => variables::select(operands),
        Instr::LocalGet(local) => variables::local_get(*local, operands, locals),
        Instr::LocalSet(local) => Ok(variables::local_set(*local, operands, locals)),
        Instr::LocalTee(local) => variables::local_tee(*local, operands, locals),
        Instr::GlobalGet(global) => variables::global_get(*global, operands, &state.globals),
        Instr::GlobalSet(global) => Ok(variables::global_set(
            *global,
            operands,
            &mut state.globals,
        )),
        Instr::Load(op, _, offset) => memory::load(*op, *offset, operands, &state.memory),
        Instr::Store(op, _, offset) => Ok(memory::store(*op, *offset, operands, &mut state.memory)),
        Instr::MemorySize => memory::size(operands, &state.memory),
        Instr::MemoryCopy => Ok(memory::copy(operands, &mut state.memory)),
        Instr::MemoryFill => Ok(memory::fill(operands, &mut state.memory)),
        Instr::Const32(word) => numeric::narrow_answer(Ok(*word), operands),
        Instr::Const64(word) => numeric::wide_answer(Ok(*word), operands),
        Instr::Eqz32 => numeric::eqz_narrow(operands),
        Instr::Eqz64 => numeric::eqz_wide(operands),
        Instr::Rel32(op) => numeric::rel_narrow(*op, operands),
        Instr::Rel64(op) => numeric::rel_wide(*op, operands),
        Instr::Un32(op) => numeric::un_narrow(*op, operands),
        Instr::Un64(op) => numeric::un_wide(*op, operands),
        Instr::Bin32(op) => numeric::bin_narrow(*op, operands),
        Instr::Bin64(op) => numeric::bin_wide(*op, operands),
        Instr::Wrap => numeric::wrap(operands),
        Instr::ExtendS => numeric::extend_s(operands),
        Instr::ExtendU => numeric::extend_u(operands),
        Instr::SignExtend { wide: true, bits } => numeric::sign_extend_wide(*bits, operands),
        Instr::SignExtend { wide: false, bits } => numeric::sign_extend_narrow(*bits, operands),
        _ => Ok(Effect::Sticks),
    }
}
