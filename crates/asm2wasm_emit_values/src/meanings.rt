//! What names mean where they are used: elements of views, callees and entries of tables.
ghost use Rattle.std.specs.Prelude.{◌≡◌, ◌≤◌, ◌++◌, suc, OnOk};
ghost use Rattle.sem_words.specs.Lists.{text_bytes};
ghost use Rattle.wasm_lang.specs.Instructions.{local_get, local_set};
ghost use Rattle.wasm_lang_exec.specs.Code.{◌⊕◌};
ghost use Rattle.wasm_laws_trees.specs.Spelled.{flat};
ghost use Rattle.wasm_laws_write.specs.Lengths.{IsNarrow};
ghost use Rattle.wasm_laws_write.specs.Each.{EachIn};
ghost use Rattle.asm_lang_valid.specs.Typing.{named};
ghost use Rattle.asm2wasm_translation.specs.Numbers.{base_of};
ghost use Rattle.asm2wasm_translation.specs.Values as code;
ghost use Rattle.asm2wasm_emit_values.specs.Contexts.{scope_in};

use crate::context::Context;
use asm_names::Meaning;
use asm2wasm_emit_pieces::{Output, builtin, exponent_of, from_base, load, store};
use sem_words::Text;
use std::alloc::AllocError;
use wasm_tree::Instr;

/// The elements of the view of this name have 2 to this number of bytes.
pub fn exponent(context: &Context<'_, '_, '_>, name: &Text) -> u32
    ensures exact { result ≡ code.exponent_in (named (scope_in context.now) (text_bytes name.now)) }
    ensures small { result ≤ 2 }
{
    match context.meaning(name) {
        Some(Meaning::View(element)) => exponent_of(element),
        _ => 0,
    }
}

/// The element of a view whose place is on the stack.
pub fn load_element(
    context: &Context<'_, '_, '_>,
    output: &mut Output,
    depth: usize,
    name: &Text,
) -> Result<(), AllocError>
    requires narrow { EachIn IsNarrow (code.load_code context.now.size (code.scratch context.now.size (scope_in context.now) depth) (named (scope_in context.now) (text_bytes name.now))) }
    ensures { OnOk result (output.new ≡ output.old ++ flat (code.load_code context.now.size (code.scratch context.now.size (scope_in context.now) depth) (named (scope_in context.now) (text_bytes name.now)))) }
{
    match context.meaning(name) {
        Some(Meaning::View(element)) => {
            let x = context.scratch(depth).current();
            load(output, context.size(), x, element)
        }
        _ => output.push(Instr::Unreachable),
    }
}

/// Puts the value on the stack into the element of a view whose place is below it.
pub fn store_element(
    context: &Context<'_, '_, '_>,
    output: &mut Output,
    depth: usize,
    name: &Text,
) -> Result<(), AllocError>
    requires narrow { EachIn IsNarrow (code.store_code context.now.size (code.scratch context.now.size (scope_in context.now) depth) (code.scratch context.now.size (scope_in context.now) (suc depth)) (named (scope_in context.now) (text_bytes name.now))) }
    ensures { OnOk result (output.new ≡ output.old ++ flat (code.store_code context.now.size (code.scratch context.now.size (scope_in context.now) depth) (code.scratch context.now.size (scope_in context.now) (suc depth)) (named (scope_in context.now) (text_bytes name.now)))) }
{
    match context.meaning(name) {
        Some(Meaning::View(element)) => {
            let scratch = context.scratch(depth);
            let y = scratch.following();
            store(output, context.size(), scratch.current(), y, element)
        }
        _ => output.push(Instr::Unreachable),
    }
}

/// The value of a store, where it is wanted.
pub fn stored_value(
    context: &Context<'_, '_, '_>,
    output: &mut Output,
    wanted: bool,
    depth: usize,
) -> Result<(), AllocError>
    requires narrow { EachIn IsNarrow (code.stored_code wanted (code.scratch context.now.size (scope_in context.now) (suc depth))) }
    ensures { OnOk result (output.new ≡ output.old ++ flat (code.stored_code wanted (code.scratch context.now.size (scope_in context.now) (suc depth)))) }
{
    if wanted {
        return output.local_get(context.scratch(depth).following());
    }
    Ok(())
}

/// A call by name, of `count` arguments on the stack.
pub fn call_named(
    context: &Context<'_, '_, '_>,
    output: &mut Output,
    wanted: bool,
    name: &Text,
    count: usize,
) -> Result<(), AllocError>
    requires narrow { EachIn IsNarrow (code.callee_code (scope_in context.now) wanted (text_bytes name.now) count (named (scope_in context.now) (text_bytes name.now))) }
    ensures { OnOk result (output.new ≡ output.old ++ flat (code.callee_code (scope_in context.now) wanted (text_bytes name.now) count (named (scope_in context.now) (text_bytes name.now)))) }
{
    match context.meaning(name) {
        Some(Meaning::Function(_)) => output.call(context.module().own_number(name)),
        Some(Meaning::Foreign(member)) => {
            output.call(context.module().import_number(member, count, wanted))
        }
        Some(Meaning::Builtin(function)) => builtin(output, function),
        _ => output.push(Instr::Unreachable),
    }
}

/// Drops the value of a call where it has one that isn't wanted: functions of the standard library always have one.
pub fn drop_called(
    context: &Context<'_, '_, '_>,
    output: &mut Output,
    wanted: bool,
    name: &Text,
) -> Result<(), AllocError>
    ensures { OnOk result (output.new ≡ output.old ++ flat (code.dropped wanted (named (scope_in context.now) (text_bytes name.now)))) }
{
    if wanted {
        return Ok(());
    }
    match context.meaning(name) {
        Some(Meaning::Builtin(_)) => output.push(Instr::Drop),
        _ => Ok(()),
    }
}

/// Keeps the entry of a table, whose index is on the stack, in a scratch local.
pub fn set_entry(
    context: &Context<'_, '_, '_>,
    output: &mut Output,
    depth: usize,
    name: &Text,
) -> Result<(), AllocError>
    requires narrow { EachIn IsNarrow (code.plains (code.from_base (base_of (scope_in context.now).home (text_bytes name.now))) ⊕ code.one (local_set (code.scratch context.now.size (scope_in context.now) depth))) }
    ensures { OnOk result (output.new ≡ output.old ++ flat (code.plains (code.from_base (base_of (scope_in context.now).home (text_bytes name.now))) ⊕ code.one (local_set (code.scratch context.now.size (scope_in context.now) depth)))) }
{
    from_base(output, context.module().base(name))?;
    output.local_set(context.scratch(depth).current())
}

/// A call of the entry of a table that waits in a scratch local, with the arguments on the stack.
pub fn call_entry(
    context: &Context<'_, '_, '_>,
    output: &mut Output,
    depth: usize,
    name: &Text,
) -> Result<(), AllocError>
    requires narrow { EachIn IsNarrow (code.one (local_get (code.scratch context.now.size (scope_in context.now) depth)) ⊕ code.entry_code (scope_in context.now) (named (scope_in context.now) (text_bytes name.now))) }
    ensures { OnOk result (output.new ≡ output.old ++ flat (code.one (local_get (code.scratch context.now.size (scope_in context.now) depth)) ⊕ code.entry_code (scope_in context.now) (named (scope_in context.now) (text_bytes name.now)))) }
{
    output.local_get(context.scratch(depth).current())?;
    match context.meaning(name) {
        Some(Meaning::Table(table)) => output.call_indirect(context.module().table_type(table)),
        _ => output.push(Instr::Unreachable),
    }
}
