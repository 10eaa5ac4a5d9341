//! Operands that are taken and given.
ghost use Rattle.std.specs.Prelude.{◌≡◌, ◌≤◌, ◌∷◌, ◌++◌, drop, vec_len, IfOk};
ghost use Rattle.wasm_lang_valid.specs.Typing.{listed};
ghost use Rattle.wasm2js_translation.specs.Actions as actions;
ghost use Rattle.wasm2js_operands.specs.Operands.{over, IsKept};

use std::alloc::AllocError;
use wasm_lang::ValType;

/// How many operands of the function lie below the topmost `count` ones of the innermost block.
pub fn under(types: &Vec<ValType>, base: usize, count: usize) -> u64
    requires { base ≤ vec_len types.now }
    ensures { result ≡ actions.under count base (over base types.now.items) }
{
    let there = types.len() - base;
    let left = if count < there { there - count } else { 0 };
    (base + left) as u64
}

fn pop(types: &mut Vec<ValType>, base: usize)
    requires { base ≤ vec_len types.old }
    ensures kept { IsKept base types.old.items types.new.items }
    ensures value { over base types.new.items ≡ drop 1 (over base types.old.items) }
{
    if types.len() > base {
        match types.pop() {
            Some(_) => {}
            None => {}
        }
    }
}

/// The topmost `count` operands of the innermost block are taken, or all of them where there are fewer.
pub fn remove(types: &mut Vec<ValType>, base: usize, count: usize)
    requires { base ≤ vec_len types.old }
    ensures kept { IsKept base types.old.items types.new.items }
    ensures value { over base types.new.items ≡ drop count (over base types.old.items) }
{
    for turn in 0..count {
        pop(types, base);
    }
}

/// One more operand.
pub fn add(types: &mut Vec<ValType>, base: usize, value_type: ValType) -> Result<(), AllocError>
    requires { base ≤ vec_len types.old }
    ensures kept { IsKept base types.old.items types.new.items }
    ensures value { IfOk result (λ _. over base types.new.items ≡ value_type ∷ over base types.old.items) }
{
    match types.push(value_type) {
        Ok(()) => Ok(()),
        Err(_) => Err(AllocError),
    }
}

/// So many operands are taken, and then one may be given.
pub fn act(
    types: &mut Vec<ValType>,
    base: usize,
    takes: usize,
    gives: Option<ValType>,
) -> Result<(), AllocError>
    requires { base ≤ vec_len types.old }
    ensures kept { IsKept base types.old.items types.new.items }
    ensures value { IfOk result (λ _. over base types.new.items ≡ listed gives ++ drop takes (over base types.old.items)) }
{
    remove(types, base, takes);
    match gives {
        None => Ok(()),
        Some(value_type) => add(types, base, value_type),
    }
}
