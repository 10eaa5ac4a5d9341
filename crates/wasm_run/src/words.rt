// Words of the script's numbers.

ghost use Rattle.std.specs.Prelude.{◌≡◌, ◌++◌, IfOk, OnOk};
ghost use Rattle.sem_words.specs.Words.{word_of};
ghost use Rattle.wasm_tree.specs.Views.{module_of};
ghost use Rattle.wasm_lang_exec.specs.Reductions.{callee_at};
ghost use Rattle.wasm_lang_exec.specs.Session;
ghost use Rattle.wasm_run_machine.specs.Functions.{AreFunctions};

use sem_words::Word;
use std::alloc::{AllocError, Global};
use wasm_lang::ValType;
use wasm_run_machine::{Function, function_at};
use wasm_tree::Module;

fn narrow_word(number: i128) -> u32
    ensures { result ≡ word_of 32 number }
{
    number.rem_euclid(1 << 32) as u32
}

fn wide_word(number: i128) -> u64
    ensures { result ≡ word_of 64 number }
{
    number.rem_euclid(1 << 64) as u64
}

/// The word of a type that a number stands for, modulo 2^32 or 2^64.
pub fn word_for(kind: ValType, number: i128) -> Word
    ensures { result ≡ Session.word_for kind number }
{
    match kind {
        ValType::I32 => Word::W32(narrow_word(number)),
        ValType::I64 => Word::W64(wide_word(number)),
    }
}

// The word of a number of a list.
fn word_at(kind: ValType, number: &i128) -> Word
    ensures { result ≡ Session.word_for kind number.now }
{
    let number = *number;
    word_for(kind, number)
}

// The words of numbers, as long as there are types for them.
fn add_words(words: &mut Vec<Word>, kinds: &[ValType], numbers: &[i128]) -> Result<(), AllocError>
    ensures { OnOk result (words.new.items ≡ words.old.items ++ Session.words_for kinds.now numbers.now) }
{
    for (k, kind) in kinds.iter().enumerate() {
        let Some(number) = numbers.get(k) else {
            return Ok(());
        };
        words.push(word_at(*kind, number))?;
    }
    Ok(())
}

/// The arguments of a call of the host; a function that isn't there has none.
pub fn arguments_for(
    alloc: Global,
    module: &Module<'_>,
    functions: &[Function],
    function: u32,
    numbers: &[i128],
) -> Result<Vec<Word>, AllocError>
    ensures { IfOk result (λ words. AreFunctions (module_of «module».now) functions.now
        → words.items ≡ Session.arguments_for (callee_at (module_of «module».now) function) numbers.now) }
{
    let mut words = Vec::new(alloc);
    let Some(function) = function_at(functions, function as usize) else {
        return Ok(words);
    };
    let Some(kind) = module.types.get(function.kind as usize) else {
        return Ok(words);
    };
    add_words(&mut words, kind.params.as_slice(), numbers)?;
    Ok(words)
}
