//! The numeric instructions (section 4.4.1), by the operators' tables.
ghost use Rattle.std.specs.Prelude.{◌≡◌, List, true, false, Ok, IfOk};
ghost use Rattle.sem_words.specs.declared.word.Word.{Word};
ghost use Rattle.wasm_lang.specs.Instructions.{eqz32, eqz64, rel32 as rel32_plain, rel64 as rel64_plain, un32 as un32_plain, un64 as un64_plain, bin32 as bin32_plain, bin64 as bin64_plain, wrap as wrap_plain, extend_s as extend_s_plain, extend_u as extend_u_plain, sign_extend};
ghost use Rattle.wasm_lang_exec.specs.Store.{Store};
ghost use Rattle.wasm_lang_exec.specs.Plain.{answer32, answer64, do_plain};
ghost use Rattle.wasm_run_operands.specs.Effects.{IsExtension, effect_of};

use crate::operands::Operands;
use crate::state::Effect;
use sem_words::{
    Bin, Rel, TrapKind, Un, Word, bin32, bin64, extend32, extend64, rel32, rel64, un32, un64,
};
use std::alloc::AllocError;

/// Pushes a word of 32 bits, or traps.
pub fn narrow_answer(
    outcome: Result<u32, TrapKind>,
    operands: &mut Operands,
) -> Result<Effect, AllocError>
    ensures effect { IfOk result (λ effect. (locals : List Word) (s : Store) →
        effect_of effect operands.new.values locals s ≡ answer32 outcome operands.old.values locals s) }
    ensures below { operands.new.below ≡ operands.old.below }
{
    match outcome {
        Ok(number) => {
            operands.push(Word::W32(number))?;
            Ok(Effect::Goes)
        }
        Err(kind) => Ok(Effect::Traps(kind)),
    }
}

/// Pushes a word of 64 bits, or traps.
pub fn wide_answer(
    outcome: Result<u64, TrapKind>,
    operands: &mut Operands,
) -> Result<Effect, AllocError>
    ensures effect { IfOk result (λ effect. (locals : List Word) (s : Store) →
        effect_of effect operands.new.values locals s ≡ answer64 outcome operands.old.values locals s) }
    ensures below { operands.new.below ≡ operands.old.below }
{
    match outcome {
        Ok(number) => {
            operands.push(Word::W64(number))?;
            Ok(Effect::Goes)
        }
        Err(kind) => Ok(Effect::Traps(kind)),
    }
}

/// `i32.eqz`.
pub fn eqz_narrow(operands: &mut Operands) -> Result<Effect, AllocError>
    ensures effect { IfOk result (λ effect. (locals : List Word) (s : Store) →
        effect_of effect operands.new.values locals s ≡ do_plain eqz32 operands.old.values locals s) }
    ensures below { operands.new.below ≡ operands.old.below }
{
    let Some(a) = operands.pop32() else {
        return Ok(Effect::Sticks);
    };
    narrow_answer(Ok(u32::from(a == 0)), operands)
}

/// `i64.eqz`.
pub fn eqz_wide(operands: &mut Operands) -> Result<Effect, AllocError>
    ensures effect { IfOk result (λ effect. (locals : List Word) (s : Store) →
        effect_of effect operands.new.values locals s ≡ do_plain eqz64 operands.old.values locals s) }
    ensures below { operands.new.below ≡ operands.old.below }
{
    let Some(a) = operands.pop64() else {
        return Ok(Effect::Sticks);
    };
    narrow_answer(Ok(u32::from(a == 0)), operands)
}

/// A comparison of 32 bits.
pub fn rel_narrow(op: Rel, operands: &mut Operands) -> Result<Effect, AllocError>
    ensures effect { IfOk result (λ effect. (locals : List Word) (s : Store) →
        effect_of effect operands.new.values locals s ≡ do_plain (rel32_plain op) operands.old.values locals s) }
    ensures below { operands.new.below ≡ operands.old.below }
{
    let Some(b) = operands.pop32() else {
        return Ok(Effect::Sticks);
    };
    let Some(a) = operands.pop32() else {
        return Ok(Effect::Sticks);
    };
    narrow_answer(Ok(u32::from(rel32(op, a, b))), operands)
}

/// A comparison of 64 bits.
pub fn rel_wide(op: Rel, operands: &mut Operands) -> Result<Effect, AllocError>
    ensures effect { IfOk result (λ effect. (locals : List Word) (s : Store) →
        effect_of effect operands.new.values locals s ≡ do_plain (rel64_plain op) operands.old.values locals s) }
    ensures below { operands.new.below ≡ operands.old.below }
{
    let Some(b) = operands.pop64() else {
        return Ok(Effect::Sticks);
    };
    let Some(a) = operands.pop64() else {
        return Ok(Effect::Sticks);
    };
    narrow_answer(Ok(u32::from(rel64(op, a, b))), operands)
}

/// An operator of one word of 32 bits.
pub fn un_narrow(op: Un, operands: &mut Operands) -> Result<Effect, AllocError>
    ensures effect { IfOk result (λ effect. (locals : List Word) (s : Store) →
        effect_of effect operands.new.values locals s ≡ do_plain (un32_plain op) operands.old.values locals s) }
    ensures below { operands.new.below ≡ operands.old.below }
{
    let Some(a) = operands.pop32() else {
        return Ok(Effect::Sticks);
    };
    narrow_answer(Ok(un32(op, a)), operands)
}

/// An operator of one word of 64 bits.
pub fn un_wide(op: Un, operands: &mut Operands) -> Result<Effect, AllocError>
    ensures effect { IfOk result (λ effect. (locals : List Word) (s : Store) →
        effect_of effect operands.new.values locals s ≡ do_plain (un64_plain op) operands.old.values locals s) }
    ensures below { operands.new.below ≡ operands.old.below }
{
    let Some(a) = operands.pop64() else {
        return Ok(Effect::Sticks);
    };
    wide_answer(Ok(un64(op, a)), operands)
}

/// An operator of two words of 32 bits.
pub fn bin_narrow(op: Bin, operands: &mut Operands) -> Result<Effect, AllocError>
    ensures effect { IfOk result (λ effect. (locals : List Word) (s : Store) →
        effect_of effect operands.new.values locals s ≡ do_plain (bin32_plain op) operands.old.values locals s) }
    ensures below { operands.new.below ≡ operands.old.below }
{
    let Some(b) = operands.pop32() else {
        return Ok(Effect::Sticks);
    };
    let Some(a) = operands.pop32() else {
        return Ok(Effect::Sticks);
    };
    narrow_answer(bin32(op, a, b), operands)
}

/// An operator of two words of 64 bits.
pub fn bin_wide(op: Bin, operands: &mut Operands) -> Result<Effect, AllocError>
    ensures effect { IfOk result (λ effect. (locals : List Word) (s : Store) →
        effect_of effect operands.new.values locals s ≡ do_plain (bin64_plain op) operands.old.values locals s) }
    ensures below { operands.new.below ≡ operands.old.below }
{
    let Some(b) = operands.pop64() else {
        return Ok(Effect::Sticks);
    };
    let Some(a) = operands.pop64() else {
        return Ok(Effect::Sticks);
    };
    wide_answer(bin64(op, a, b), operands)
}

/// `i32.wrap_i64`.
pub fn wrap(operands: &mut Operands) -> Result<Effect, AllocError>
    ensures effect { IfOk result (λ effect. (locals : List Word) (s : Store) →
        effect_of effect operands.new.values locals s ≡ do_plain wrap_plain operands.old.values locals s) }
    ensures below { operands.new.below ≡ operands.old.below }
{
    let Some(a) = operands.pop64() else {
        return Ok(Effect::Sticks);
    };
    narrow_answer(Ok((a % (1 << 32)) as u32), operands)
}

/// `i64.extend_i32_s`.
pub fn extend_s(operands: &mut Operands) -> Result<Effect, AllocError>
    ensures effect { IfOk result (λ effect. (locals : List Word) (s : Store) →
        effect_of effect operands.new.values locals s ≡ do_plain extend_s_plain operands.old.values locals s) }
    ensures below { operands.new.below ≡ operands.old.below }
{
    let Some(a) = operands.pop32() else {
        return Ok(Effect::Sticks);
    };
    wide_answer(Ok(extend64(32, u64::from(a))), operands)
}

/// `i64.extend_i32_u`.
pub fn extend_u(operands: &mut Operands) -> Result<Effect, AllocError>
    ensures effect { IfOk result (λ effect. (locals : List Word) (s : Store) →
        effect_of effect operands.new.values locals s ≡ do_plain extend_u_plain operands.old.values locals s) }
    ensures below { operands.new.below ≡ operands.old.below }
{
    let Some(a) = operands.pop32() else {
        return Ok(Effect::Sticks);
    };
    wide_answer(Ok(u64::from(a)), operands)
}

/// `i32.extend8_s`, `i32.extend16_s`.
pub fn sign_extend_narrow(bits: u32, operands: &mut Operands) -> Result<Effect, AllocError>
    requires { IsExtension false bits }
    ensures effect { IfOk result (λ effect. (locals : List Word) (s : Store) →
        effect_of effect operands.new.values locals s ≡ do_plain (sign_extend false bits) operands.old.values locals s) }
    ensures below { operands.new.below ≡ operands.old.below }
{
    let Some(a) = operands.pop32() else {
        return Ok(Effect::Sticks);
    };
    narrow_answer(Ok(extend32(bits, a)), operands)
}

/// `i64.extend8_s`, `i64.extend16_s`, `i64.extend32_s`.
pub fn sign_extend_wide(bits: u32, operands: &mut Operands) -> Result<Effect, AllocError>
    requires { IsExtension true bits }
    ensures effect { IfOk result (λ effect. (locals : List Word) (s : Store) →
        effect_of effect operands.new.values locals s ≡ do_plain (sign_extend true bits) operands.old.values locals s) }
    ensures below { operands.new.below ≡ operands.old.below }
{
    let Some(a) = operands.pop64() else {
        return Ok(Effect::Sticks);
    };
    wide_answer(Ok(extend64(bits, a)), operands)
}
