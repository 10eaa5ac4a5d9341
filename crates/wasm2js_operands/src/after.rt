//! The operands after each instruction.
ghost use Rattle.std.specs.Prelude.{◌≡◌, ◌≤◌, Some, None, List, vec_len, IfOk, if◌then◌else◌};
ghost use Rattle.wasm_lang.specs.declared.types.ValType.{ValType};
ghost use Rattle.wasm_tree.specs.Views.{instr_of, type_of};
ghost use Rattle.wasm_lang_valid.specs.Typing as typing;
ghost use Rattle.wasm2js_translation.specs.Bodies as bodies;
ghost use Rattle.wasm2js_operands.specs.Operands.{over, IsKept};
ghost use Rattle.wasm2js_operands.specs.Effects.{effect_on, gives_local, gives_global};
ghost use Rattle.wasm2js_operands.specs.Scopes.{context_in, after};

use crate::operands::act;
use crate::scope::BodyScope;
use std::alloc::AllocError;
use wasm_lang::ValType;
use wasm_lang::ValType::{I32, I64};
use wasm_tree::{FuncType, Instr};

/// How many operands an instruction takes, and what it gives.
#[derive(Clone, Copy)]
pub struct Effect {
    takes: usize,
    gives: Option<ValType>,
}

fn acts(takes: usize, gives: Option<ValType>) -> Option<Effect>
    ensures { result ≡ Some (record { takes = takes; gives = gives }) }
{
    Some(Effect { takes, gives })
}

fn kind_of(wide: bool) -> ValType
    ensures { result ≡ typing.kind_of wide }
{
    if wide { I64 } else { I32 }
}

// Without a memory nothing is taken or given.
fn with_memory(memory: bool, takes: usize, gives: Option<ValType>) -> Option<Effect>
    ensures { result ≡ (if memory then Some (record { takes = takes; gives = gives }) else None) }
{
    if memory { acts(takes, gives) } else { None }
}

fn effect_of(scope: &BodyScope<'_>, instr: &Instr) -> Option<Effect>
    ensures { (ts : List ValType) → after (context_in scope.now) (instr_of instr.now) ts ≡ effect_on result ts }
{
    match instr {
        Instr::Drop => acts(1, None),
        Instr::Select => acts(2, None),
        Instr::LocalGet(x) => local(scope, *x, 0, true),
        Instr::LocalSet(x) => local(scope, *x, 1, false),
        Instr::LocalTee(x) => local(scope, *x, 1, true),
        Instr::GlobalGet(x) => global(scope, *x, 0, true),
        Instr::GlobalSet(x) => global(scope, *x, 1, false),
        Instr::Load(op, _, _) => with_memory(scope.memory, 1, Some(kind_of(op.wide))),
        Instr::Store(_, _, _) => with_memory(scope.memory, 2, None),
        Instr::MemorySize => with_memory(scope.memory, 0, Some(I32)),
        Instr::MemoryCopy | Instr::MemoryFill => with_memory(scope.memory, 3, None),
        Instr::Const32(_) => acts(0, Some(I32)),
        Instr::Const64(_) => acts(0, Some(I64)),
        Instr::Eqz32 | Instr::Eqz64 | Instr::Un32(_) | Instr::Wrap => acts(1, Some(I32)),
        Instr::Rel32(_) | Instr::Rel64(_) | Instr::Bin32(_) => acts(2, Some(I32)),
        Instr::Un64(_) | Instr::ExtendS | Instr::ExtendU => acts(1, Some(I64)),
        Instr::Bin64(_) => acts(2, Some(I64)),
        Instr::SignExtend { wide, .. } => acts(1, Some(kind_of(*wide))),
        _ => None,
    }
}

// What takes so many operands, and may give a local's value.
fn local(scope: &BodyScope<'_>, number: u32, takes: usize, gives: bool) -> Option<Effect>
    ensures { result ≡ gives_local (context_in scope.now) number takes gives }
{
    match scope.locals.get(number as usize) {
        None => None,
        Some(value_type) => acts(takes, if gives { Some(*value_type) } else { None }),
    }
}

fn global(scope: &BodyScope<'_>, number: u32, takes: usize, gives: bool) -> Option<Effect>
    ensures { result ≡ gives_global (context_in scope.now) number takes gives }
{
    match scope.globals.get(number as usize) {
        None => None,
        Some(entry) => acts(takes, if gives { Some(entry.kind) } else { None }),
    }
}

/// A plain instruction.
pub fn after_plain(
    scope: &BodyScope<'_>,
    types: &mut Vec<ValType>,
    base: usize,
    instr: &Instr,
) -> Result<(), AllocError>
    requires { base ≤ vec_len types.old }
    ensures kept { IsKept base types.old.items types.new.items }
    ensures value { IfOk result (λ _. over base types.new.items ≡ after (context_in scope.now) (instr_of instr.now) (over base types.old.items)) }
{
    match effect_of(scope, instr) {
        None => Ok(()),
        Some(effect) => act(types, base, effect.takes, effect.gives),
    }
}

fn result_type(function_type: &FuncType) -> Option<ValType>
    ensures { result ≡ typing.result_of (type_of function_type.now) }
{
    let results = function_type.results.as_slice();
    if results.is_empty() {
        None
    } else {
        Some(results[0])
    }
}

/// A call of a function of this type.
pub fn after_call(
    types: &mut Vec<ValType>,
    base: usize,
    function_type: &FuncType,
) -> Result<(), AllocError>
    requires { base ≤ vec_len types.old }
    ensures kept { IsKept base types.old.items types.new.items }
    ensures value { IfOk result (λ _. over base types.new.items ≡ bodies.after_call (type_of function_type.now) (over base types.old.items)) }
{
    act(
        types,
        base,
        function_type.params.len(),
        result_type(function_type),
    )
}
