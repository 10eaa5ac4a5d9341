//! The memory instructions (section 4.4.4). The address of a load or a store is the sum of operand and offset,
//! and doesn't wrap.
ghost use Rattle.std.specs.Prelude.{◌≡◌, ◌+◌, ◌<◌, ◌^◌, ℕ, List, ◌∷◌, IfOk, MatchOption, None, if◌then◌else◌};
ghost use Rattle.sem_words.specs.declared.word.Word.{Word};
ghost use Rattle.wasm_lang.specs.Instructions as plain;
ghost use Rattle.wasm_lang_exec.specs.Store.{Store};
ghost use Rattle.wasm_lang_exec.specs.Plain.{do_plain, put_memory, loaded_number};
ghost use Rattle.wasm_run_operands.specs.Effects.{IsMemForm, Keeps, effect_of};
ghost use Rattle.wasm_run_operands.specs.Tops.{top32, top64};

use crate::operands::Operands;
use crate::state::Effect;
use heap_views::Heap;
use sem_words::{TrapKind, Word, extend32, extend64};
use std::alloc::AllocError;
use wasm_lang::MemOp;

const PAGE: usize = 65536;

const OUTSIDE: Effect = Effect::Traps(TrapKind::Memory);

/// A load of any form.
pub fn load(
    op: MemOp,
    offset: u32,
    operands: &mut Operands,
    memory: &Heap,
) -> Result<Effect, AllocError>
    requires { IsMemForm op }
    ensures effect { IfOk result (λ effect. (align : ℕ) (locals : List Word) (s : Store) →
        effect_of effect operands.new.values locals (put_memory memory.now s)
        ≡ do_plain (plain.load op align offset) operands.old.values locals (put_memory memory.now s)) }
    ensures below { operands.new.below ≡ operands.old.below }
{
    let Some(base) = operands.pop32() else {
        return Ok(Effect::Sticks);
    };
    let Some(number) = memory.load_le(address(base, offset), op.size) else {
        return Ok(OUTSIDE);
    };
    operands.push(loaded_word(op, number))?;
    Ok(Effect::Goes)
}

/// A store of any form. Where it passes the end of the memory, nothing of it is written.
pub fn store(op: MemOp, offset: u32, operands: &mut Operands, memory: &mut Heap) -> Effect
    requires { IsMemForm op }
    ensures effect { (align : ℕ) (locals : List Word) (s : Store) →
        effect_of result operands.new.values locals (put_memory memory.new s)
        ≡ do_plain (plain.store op align offset) operands.old.values locals (put_memory memory.old s) }
    ensures keeps { (s : Store) → Keeps result (put_memory memory.new s) (put_memory memory.old s) }
    ensures below { operands.new.below ≡ operands.old.below }
{
    let Some(number) = stored_number(op.wide, operands) else {
        return Effect::Sticks;
    };
    let Some(base) = operands.pop32() else {
        return Effect::Sticks;
    };
    after_access(memory.store_le(address(base, offset), op.size, number))
}

/// `memory.size`, in pages.
pub fn size(operands: &mut Operands, memory: &Heap) -> Result<Effect, AllocError>
    ensures effect { IfOk result (λ effect. (locals : List Word) (s : Store) →
        effect_of effect operands.new.values locals (put_memory memory.now s)
        ≡ do_plain plain.memory_size operands.old.values locals (put_memory memory.now s)) }
    ensures below { operands.new.below ≡ operands.old.below }
{
    let pages = memory.bytes().len() / PAGE;
    operands.push(Word::W32(pages as u32))?;
    Ok(Effect::Goes)
}

/// `memory.copy`. Where a range passes the end of the memory, nothing is written.
pub fn copy(operands: &mut Operands, memory: &mut Heap) -> Effect
    ensures effect { (locals : List Word) (s : Store) →
        effect_of result operands.new.values locals (put_memory memory.new s)
        ≡ do_plain plain.memory_copy operands.old.values locals (put_memory memory.old s) }
    ensures keeps { (s : Store) → Keeps result (put_memory memory.new s) (put_memory memory.old s) }
    ensures below { operands.new.below ≡ operands.old.below }
{
    let Some(len) = operands.pop32() else {
        return Effect::Sticks;
    };
    let Some(from) = operands.pop32() else {
        return Effect::Sticks;
    };
    let Some(to) = operands.pop32() else {
        return Effect::Sticks;
    };
    after_access(memory.copy_run(to, from, len))
}

/// `memory.fill`. Where the range passes the end of the memory, nothing is written.
pub fn fill(operands: &mut Operands, memory: &mut Heap) -> Effect
    ensures effect { (locals : List Word) (s : Store) →
        effect_of result operands.new.values locals (put_memory memory.new s)
        ≡ do_plain plain.memory_fill operands.old.values locals (put_memory memory.old s) }
    ensures keeps { (s : Store) → Keeps result (put_memory memory.new s) (put_memory memory.old s) }
    ensures below { operands.new.below ≡ operands.old.below }
{
    let Some(len) = operands.pop32() else {
        return Effect::Sticks;
    };
    let Some(value) = operands.pop32() else {
        return Effect::Sticks;
    };
    let Some(at) = operands.pop32() else {
        return Effect::Sticks;
    };
    after_access(memory.fill(at, len, (value % 0x100) as u8))
}

// Where an access begins. It doesn't wrap.
fn address(base: u32, offset: u32) -> u64
    ensures { result ≡ base + offset }
{
    u64::from(base) + u64::from(offset)
}

// The word that a load of this form makes of the number that its bytes stand for.
fn loaded_word(op: MemOp, number: u64) -> Word
    requires form { IsMemForm op }
    requires bytes { number < 256 ^ op.size }
    ensures { result ≡ (if op.wide then Word.W64 (loaded_number op 64 number) else Word.W32 (loaded_number op 32 number)) }
{
    match (op.wide, op.signed) {
        (true, true) => Word::W64(extend64(8 * op.size, number)),
        (true, false) => Word::W64(number),
        (false, true) => Word::W32(extend32(8 * op.size, number as u32)),
        (false, false) => Word::W32(number as u32),
    }
}

// The number that a store writes, from the top of the operands.
fn stored_number(wide: bool, operands: &mut Operands) -> Option<u64>
    ensures number { MatchOption result
        ((if wide then top64 operands.old.values else top32 operands.old.values) ≡ None)
        (λ n. operands.old.values ≡ (if wide then Word.W64 n else Word.W32 n) ∷ operands.new.values) }
    ensures below { operands.new.below ≡ operands.old.below }
{
    if wide {
        operands.pop64()
    } else {
        Some(u64::from(operands.pop32()?))
    }
}

// What becomes of a run at an access.
fn after_access(is_inside: bool) -> Effect
    ensures { result ≡ (if is_inside then Effect.Goes else Effect.Traps TrapKind.Memory) }
{
    if is_inside { Effect::Goes } else { OUTSIDE }
}
