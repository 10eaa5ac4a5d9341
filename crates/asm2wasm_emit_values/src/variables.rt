//! Variables, and values that aren't wanted.
ghost use Rattle.std.specs.Prelude.{◌≡◌, ◌++◌, true, false, OnOk};
ghost use Rattle.sem_words.specs.Lists.{text_bytes};
ghost use Rattle.wasm_lang_exec.specs.Code.{ε};
ghost use Rattle.wasm_laws_trees.specs.Spelled.{flat};
ghost use Rattle.wasm_laws_write.specs.Lengths.{IsNarrow};
ghost use Rattle.wasm_laws_write.specs.Each.{EachIn};
ghost use Rattle.asm2wasm_translation.specs.Values as code;
ghost use Rattle.asm2wasm_translation.specs.Numbers.{place_of};
ghost use Rattle.asm2wasm_emit_values.specs.Contexts.{scope_in};

use crate::context::Context;
use asm2wasm_emit_pieces::Output;
use asm2wasm_numbers::Place;
use sem_words::Text;
use std::alloc::AllocError;
use wasm_tree::Instr;

/// The value of a variable.
pub fn get(
    context: &Context<'_, '_, '_>,
    output: &mut Output,
    name: &Text,
) -> Result<(), AllocError>
    requires narrow { EachIn IsNarrow (code.get_code (place_of (scope_in context.now) (text_bytes name.now))) }
    ensures { OnOk result (output.new ≡ output.old ++ flat (code.get_code (place_of (scope_in context.now) (text_bytes name.now)))) }
{
    match context.place(name) {
        Place::Local(x) => output.local_get(x),
        Place::Global(x) => output.global_get(x),
        Place::Nowhere => output.push(Instr::Unreachable),
    }
}

/// Puts the value on the stack into a variable, and leaves it there where it is wanted.
pub fn put(
    context: &Context<'_, '_, '_>,
    output: &mut Output,
    wanted: bool,
    name: &Text,
) -> Result<(), AllocError>
    requires narrow { EachIn IsNarrow (code.put_code wanted (place_of (scope_in context.now) (text_bytes name.now))) }
    ensures { OnOk result (output.new ≡ output.old ++ flat (code.put_code wanted (place_of (scope_in context.now) (text_bytes name.now)))) }
{
    if wanted {
        keep(context, output, name)
    } else {
        set(context, output, name)
    }
}

fn keep(context: &Context<'_, '_, '_>, output: &mut Output, name: &Text) -> Result<(), AllocError>
    requires narrow { EachIn IsNarrow (code.put_code true (place_of (scope_in context.now) (text_bytes name.now))) }
    ensures { OnOk result (output.new ≡ output.old ++ flat (code.put_code true (place_of (scope_in context.now) (text_bytes name.now)))) }
{
    match context.place(name) {
        Place::Local(x) => output.local_tee(x),
        Place::Global(x) => {
            output.global_set(x)?;
            output.global_get(x)
        }
        Place::Nowhere => output.push(Instr::Unreachable),
    }
}

fn set(context: &Context<'_, '_, '_>, output: &mut Output, name: &Text) -> Result<(), AllocError>
    requires narrow { EachIn IsNarrow (code.put_code false (place_of (scope_in context.now) (text_bytes name.now))) }
    ensures { OnOk result (output.new ≡ output.old ++ flat (code.put_code false (place_of (scope_in context.now) (text_bytes name.now)))) }
{
    match context.place(name) {
        Place::Local(x) => output.local_set(x),
        Place::Global(x) => output.global_set(x),
        Place::Nowhere => output.push(Instr::Unreachable),
    }
}

/// Drops the value on the stack where it isn't wanted.
pub fn finish(output: &mut Output, wanted: bool) -> Result<(), AllocError>
    ensures { OnOk result (output.new ≡ output.old ++ flat (code.finished wanted ε)) }
{
    if wanted {
        return Ok(());
    }
    output.push(Instr::Drop)
}
