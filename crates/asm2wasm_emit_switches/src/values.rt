//! Whether the value of a switch is that of a case.
ghost use Rattle.std.specs.Prelude.{◌≡◌, ◌<◌, ◌^◌, [], ◌∷◌, ◌++◌, OnOk};
ghost use Rattle.sem_words.specs.Words as words;
ghost use Rattle.sem_words.specs.declared.word.Rel.TheVariants as rels;
ghost use Rattle.wasm_lang.specs.Instructions.{local_get, rel32};
ghost use Rattle.wasm_laws_trees.specs.Spelled.{flat};
ghost use Rattle.asm2wasm_translation.specs.Values as code;

use asm2wasm_emit_pieces::Output;
use sem_words::Rel;
use std::alloc::AllocError;
use switch_cases::word_of;
use wasm_tree::Instr;

/// Whether the local `t` holds the value of a case.
pub fn is_value(output: &mut Output, t: usize, value: i64) -> Result<(), AllocError>
    requires { t < 2 ^ 32 }
    ensures { OnOk result (output.new ≡ output.old ++ flat (code.plains (local_get t ∷ code.number (words.word_of 32 value) ∷ rel32 rels.Eq ∷ []))) }
{
    output.local_get(t)?;
    output.push(Instr::Const32(word_of(value)))?;
    output.push(Instr::Rel32(Rel::Eq))
}
