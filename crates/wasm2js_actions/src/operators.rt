//! Instructions by the numbers of their operands, of which the deepest stands above d others.
ghost use Rattle.std.specs.Prelude.{◌≡◌, ◌+◌, ◌<◌, ◌^◌, ◌/◌, [], ◌∷◌, ◌++◌, true, false, IfOk};
ghost use Rattle.sem_words.specs.Words.{signed_of};
ghost use Rattle.session_lang.specs.Imports.{low_word, high_word};
ghost use Rattle.wasm_lang_valid.specs.Measures.{is_mul_div};
ghost use Rattle.wasm_lang_exec.specs.Store.{page};
ghost use Rattle.wasm2js_translation.specs.Words as words;
ghost use Rattle.wasm2js_translation.specs.Pairs as pairs;
ghost use Rattle.wasm2js_translation.specs.Pairs.{simples};
ghost use Rattle.wasm2js_translation.specs.Wide as wide;
ghost use Rattle.wasm2js_translation.specs.Delays as delays;
ghost use Rattle.wasm2js_translation.specs.Actions as code;
ghost use Rattle.wasm2js_build.specs.Growing.{run, state_of};

use crate::numeric::{
    binary, is_zero, narrow_constant, relation, sign_extended, unary, wide_constant,
};
use sem_words::{Bin, Rel, Un};
use split_words::{operand_pair, put_binary, put_relation, put_sign, put_unary, put_zero_test};
use std::alloc::AllocError;
use wasm2js_accesses::{high, low, put_number};
use wasm2js_build::Straight;

pub fn binary_at(straight: &mut Straight, op: Bin, d: u64) -> Result<(), AllocError>
    requires { d + 1 < 2 ^ 64 }
    ensures { IfOk result (λ _. state_of straight.new ≡ run (state_of straight.old) (simples (code.narrow_binary op (code.low d) (code.low (d + 1))))) }
{
    binary(straight, op, low(d), low(d + 1))
}

pub fn unary_at(straight: &mut Straight, op: Un, d: u64) -> Result<(), AllocError>
    ensures { IfOk result (λ _. state_of straight.new ≡ run (state_of straight.old) (simples (code.narrow_unary op (code.low d)))) }
{
    unary(straight, op, low(d))
}

pub fn relation_at(straight: &mut Straight, op: Rel, d: u64) -> Result<(), AllocError>
    requires { d + 1 < 2 ^ 64 }
    ensures { IfOk result (λ _. state_of straight.new ≡ run (state_of straight.old) (simples (words.put (code.low d) (code.narrow_relation op (words.read (code.low d)) (words.read (code.low (d + 1)))) ∷ []))) }
{
    relation(straight, op, low(d), low(d + 1))
}

pub fn zero_at(straight: &mut Straight, d: u64) -> Result<(), AllocError>
    ensures { IfOk result (λ _. state_of straight.new ≡ run (state_of straight.old) (simples (words.put (code.low d) (words.compare true words.equal (words.read (code.low d)) (pairs.literal 0)) ∷ []))) }
{
    is_zero(straight, low(d))
}

pub fn wide_binary_at(straight: &mut Straight, op: Bin, d: u64) -> Result<(), AllocError>
    requires there { d + 1 < 2 ^ 64 }
    requires translated { is_mul_div op ≡ false }
    ensures { IfOk result (λ _. state_of straight.new ≡ run (state_of straight.old) (simples (wide.wide_binary_at (delays.number_at (state_of straight.old).waits (code.low (d + 1))) op (pairs.operand_pair d) (pairs.operand_pair (d + 1)) (pairs.operand_pair d)))) }
{
    put_binary(
        straight,
        op,
        operand_pair(d),
        operand_pair(d + 1),
        operand_pair(d),
    )
}

pub fn wide_unary_at(straight: &mut Straight, op: Un, d: u64) -> Result<(), AllocError>
    ensures { IfOk result (λ _. state_of straight.new ≡ run (state_of straight.old) (simples (wide.wide_unary op (pairs.operand_pair d) (pairs.operand_pair d)))) }
{
    put_unary(straight, op, operand_pair(d), operand_pair(d))
}

pub fn wide_relation_at(straight: &mut Straight, op: Rel, d: u64) -> Result<(), AllocError>
    requires { d + 1 < 2 ^ 64 }
    ensures { IfOk result (λ _. state_of straight.new ≡ run (state_of straight.old) (simples (wide.wide_compare op (pairs.operand_pair d) (pairs.operand_pair (d + 1)) (code.low d)))) }
{
    put_relation(straight, op, operand_pair(d), operand_pair(d + 1), low(d))
}

pub fn wide_zero_at(straight: &mut Straight, d: u64) -> Result<(), AllocError>
    ensures { IfOk result (λ _. state_of straight.new ≡ run (state_of straight.old) (simples (words.put (code.low d) (wide.is_wide_zero (pairs.operand_pair d)) ∷ []))) }
{
    put_zero_test(straight, operand_pair(d), low(d))
}

pub fn extend_signed_at(straight: &mut Straight, d: u64) -> Result<(), AllocError>
    ensures { IfOk result (λ _. state_of straight.new ≡ run (state_of straight.old) (simples (words.put (pairs.operand_pair d).high (pairs.sign_of (words.read (code.low d))) ∷ []))) }
{
    put_sign(straight, low(d), high(d))
}

pub fn extend_at(straight: &mut Straight, d: u64) -> Result<(), AllocError>
    ensures { IfOk result (λ _. state_of straight.new ≡ run (state_of straight.old) (simples (words.put (pairs.operand_pair d).high (pairs.literal 0) ∷ []))) }
{
    put_number(straight, high(d), 0)
}

pub fn sign_extend_at(
    straight: &mut Straight,
    wide: bool,
    bits: u32,
    d: u64,
) -> Result<(), AllocError>
    ensures { IfOk result (λ _. state_of straight.new ≡ run (state_of straight.old) (simples (code.sign_extended wide bits (pairs.operand_pair d)))) }
{
    sign_extended(straight, wide, bits, operand_pair(d))
}

pub fn constant_at(straight: &mut Straight, word: u32, d: u64) -> Result<(), AllocError>
    ensures { IfOk result (λ _. state_of straight.new ≡ run (state_of straight.old) (simples (words.put (code.low d) (words.number (signed_of 32 word)) ∷ []))) }
{
    narrow_constant(straight, low(d), word)
}

pub fn wide_constant_at(straight: &mut Straight, word: u64, d: u64) -> Result<(), AllocError>
    ensures { IfOk result (λ _. state_of straight.new ≡ run (state_of straight.old) (simples (words.put (code.low d) (words.number (signed_of 32 (low_word word))) ∷ words.put (pairs.operand_pair d).high (words.number (signed_of 32 (high_word word))) ∷ []))) }
{
    wide_constant(straight, operand_pair(d), word)
}

pub fn size_at(straight: &mut Straight, bytes: u64, d: u64) -> Result<(), AllocError>
    ensures { IfOk result (λ _. state_of straight.new ≡ run (state_of straight.old) (simples (words.put (code.low d) (pairs.literal (bytes / page)) ∷ []))) }
{
    put_number(straight, low(d), (bytes / 0x1_0000) as i64)
}
