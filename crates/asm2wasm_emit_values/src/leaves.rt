//! Expressions without parts.
ghost use Rattle.std.specs.Prelude.{◌≡◌, ◌≤◌, ◌++◌, OnOk};
ghost use Rattle.sem_words.specs.Lists.{text_bytes};
ghost use Rattle.sem_words.specs.Words.{word_of};
ghost use Rattle.wasm_lang_exec.specs.Code.{ε, ◌▹◌, unreachable};
ghost use Rattle.wasm_laws_trees.specs.Spelled.{flat};
ghost use Rattle.wasm_laws_write.specs.Lengths.{IsNarrow};
ghost use Rattle.wasm_laws_write.specs.Each.{EachIn};
ghost use Rattle.asm2wasm_translation.specs.Numbers.{place_of};
ghost use Rattle.asm2wasm_translation.specs.Values as code;
ghost use Rattle.asm2wasm_emit_values.specs.Contexts.{scope_in};

use crate::context::Context;
use crate::variables::{finish, get};
use asm2wasm_emit_pieces::Output;
use sem_words::Text;
use std::alloc::AllocError;
use wasm_tree::Instr;

/// A whole number.
pub fn emit_literal(output: &mut Output, wanted: bool, value: i128) -> Result<(), AllocError>
    ensures { OnOk result (output.new ≡ output.old ++ flat (code.finished wanted (code.one (code.number (word_of 32 value))))) }
{
    output.push(Instr::Const32(low_word(value)))?;
    finish(output, wanted)
}

/// Where the element of 2 to the exponent bytes begins at an index that is a literal.
pub fn emit_literal_place(output: &mut Output, exponent: u32, index: i128) -> Result<(), AllocError>
    requires { exponent ≤ 2 }
    ensures { OnOk result (output.new ≡ output.old ++ flat (code.one (code.number (code.literal_place exponent index)))) }
{
    let word = low_word(index);
    if index < 0 {
        return output.push(Instr::Const32(word));
    }
    output.push(Instr::Const32(word << exponent))
}

/// A number with a dot, which no accepted module has.
pub fn emit_decimal(output: &mut Output, wanted: bool) -> Result<(), AllocError>
    ensures { OnOk result (output.new ≡ output.old ++ flat (code.finished wanted (unreachable ▹ ε))) }
{
    output.push(Instr::Unreachable)?;
    finish(output, wanted)
}

/// A variable.
pub fn emit_variable(
    context: &Context<'_, '_, '_>,
    output: &mut Output,
    wanted: bool,
    name: &Text,
) -> Result<(), AllocError>
    requires narrow { EachIn IsNarrow (code.finished wanted (code.get_code (place_of (scope_in context.now) (text_bytes name.now)))) }
    ensures { OnOk result (output.new ≡ output.old ++ flat (code.finished wanted (code.get_code (place_of (scope_in context.now) (text_bytes name.now))))) }
{
    get(context, output, name)?;
    finish(output, wanted)
}

// The word of a whole number.
fn low_word(z: i128) -> u32
    ensures { result ≡ word_of 32 z }
{
    z.rem_euclid(1 << 32) as u32
}
