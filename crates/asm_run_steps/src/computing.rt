//! Operations on words.
ghost use Rattle.std.specs.Prelude.{◌≡◌, OnOk};
ghost use Rattle.sem_words.specs.Words.{sub_of, leading_zeros_of};
ghost use Rattle.asm_run_code.specs.Operators as operators;
ghost use Rattle.asm_run_steps.specs.Plain.{slot_word, with_word};

use crate::operators::{complement, negated, word_op, zeros};
use crate::words::Words;
use asm_run_code::Operator;
use std::alloc::AllocError;

#[inline(always)]
pub fn copy(words: &mut Words, to: u32, from: u32) -> Result<(), AllocError>
    ensures { OnOk result (words.new ≡ with_word words.old to (slot_word words.old from)) }
{
    let word = words.get(from);
    words.put(to, word)
}

#[inline(always)]
pub fn apply(
    words: &mut Words,
    operator: Operator,
    to: u32,
    left: u32,
    right: u32,
) -> Result<(), AllocError>
    ensures { OnOk result (words.new ≡ with_word words.old to (operators.word_op operator (slot_word words.old left) (slot_word words.old right))) }
{
    let word = word_op(operator, words.get(left), words.get(right));
    words.put(to, word)
}

#[inline(always)]
pub fn apply_number(
    words: &mut Words,
    operator: Operator,
    to: u32,
    left: u32,
    number: u32,
) -> Result<(), AllocError>
    ensures { OnOk result (words.new ≡ with_word words.old to (operators.word_op operator (slot_word words.old left) number)) }
{
    let word = word_op(operator, words.get(left), number);
    words.put(to, word)
}

#[inline(always)]
pub fn negate(words: &mut Words, to: u32, from: u32) -> Result<(), AllocError>
    ensures { OnOk result (words.new ≡ with_word words.old to (sub_of 32 0 (slot_word words.old from))) }
{
    let word = negated(words.get(from));
    words.put(to, word)
}

#[inline(always)]
pub fn turn_over(words: &mut Words, to: u32, from: u32) -> Result<(), AllocError>
    ensures { OnOk result (words.new ≡ with_word words.old to (sub_of 32 4294967295 (slot_word words.old from))) }
{
    let word = complement(words.get(from));
    words.put(to, word)
}

#[inline(always)]
pub fn count_zeros(words: &mut Words, to: u32, from: u32) -> Result<(), AllocError>
    ensures { OnOk result (words.new ≡ with_word words.old to (leading_zeros_of 32 (slot_word words.old from))) }
{
    let word = zeros(words.get(from));
    words.put(to, word)
}
