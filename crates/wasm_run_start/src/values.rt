//! Values of constant expressions.
ghost use Rattle.std.specs.Prelude.{◌≡◌, ◌+◌, ◌++◌, ◌∷◌, List, map, nat_le, slice_get, OnOk};
ghost use Rattle.wasm_lang.specs.Instructions.{Instruction};
ghost use Rattle.wasm_lang.specs.Modules.{GlobalEntry};
ghost use Rattle.wasm_tree.specs.Views.{global_of, instr_of};
ghost use Rattle.wasm_lang_exec.specs.Session as session;

use sem_words::Word;
use std::alloc::AllocError;
use wasm_tree::{GlobalDef, Instr};

// The value of a global, or 0 past the last.
fn global_at(globals: &[Word], number: u32) -> Word
    ensures { result ≡ session.some_or_zero (slice_get globals.now number) }
{
    match globals.get(number as usize) {
        None => Word::W32(0),
        Some(word) => *word,
    }
}

// The value of a constant expression that begins with this instruction.
fn first_value(globals: &[Word], instr: &Instr) -> Word
    ensures { (rest : List Instruction) → result ≡ session.value_of globals.now (instr_of instr.now ∷ rest) }
{
    match instr {
        Instr::Const32(word) => Word::W32(*word),
        Instr::Const64(word) => Word::W64(*word),
        Instr::GlobalGet(global) => global_at(globals, *global),
        _ => Word::W32(0),
    }
}

/// The value of a constant expression.
pub fn value_of(globals: &[Word], code: &[Instr]) -> Word
    ensures { result ≡ session.value_of globals.now (map instr_of code.now) }
{
    match code {
        [] => Word::W32(0),
        [instr, ..] => first_value(globals, instr),
    }
}

/// The place that an offset computes.
pub fn offset_of(globals: &[Word], code: &[Instr]) -> u64
    ensures { result ≡ session.place_of (session.value_of globals.now (map instr_of code.now)) }
{
    match value_of(globals, code) {
        Word::W32(number) => u64::from(number),
        Word::W64(number) => number,
    }
}

/// Whether so many from a place on are among all.
pub fn is_within(place: u64, count: usize, all: usize) -> bool
    ensures { result ≡ nat_le (place + count) all }
{
    let count = count as u64;
    let all = all as u64;
    count <= all && place <= all - count
}

/// Adds the first values of a module's own globals. They rest on the imported ones, which are `given`.
pub fn add_first_values(
    all: &mut Vec<Word>,
    given: &[Word],
    globals: &[GlobalDef],
) -> Result<(), AllocError>
    ensures { OnOk result (all.new.items ≡ all.old.items ++ map (λ (g : GlobalEntry). session.value_of given.now g.init) (map global_of globals.now)) }
{
    for global in globals {
        all.push(value_of(given, global.init.as_slice()))?;
    }
    Ok(())
}
