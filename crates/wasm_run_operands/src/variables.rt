//! The parametric and variable instructions (sections 4.4.2 and 4.4.3).
ghost use Rattle.std.specs.Prelude.{◌≡◌, List, true, false, IfOk, MatchOption, slice_get, slice_set, if◌then◌else◌};
ghost use Rattle.sem_words.specs.declared.word.Word.{Word};
ghost use Rattle.wasm_lang.specs.Instructions as plain;
ghost use Rattle.wasm_lang_exec.specs.Store.{Store};
ghost use Rattle.wasm_lang_exec.specs.Plain.{do_plain};
ghost use Rattle.wasm_run_operands.specs.Effects.{Keeps, effect_of, with_globals};

use crate::operands::Operands;
use crate::state::Effect;
use sem_words::Word;
use std::alloc::AllocError;

/// `drop`.
pub fn drop_operand(operands: &mut Operands) -> Effect
    ensures effect { (locals : List Word) (s : Store) →
        effect_of result operands.new.values locals s ≡ do_plain plain.drop_operand operands.old.values locals s }
    ensures below { operands.new.below ≡ operands.old.below }
{
    match operands.pop() {
        Some(_) => Effect::Goes,
        None => Effect::Sticks,
    }
}

/// `select`.
pub fn select(operands: &mut Operands) -> Result<Effect, AllocError>
    ensures effect { IfOk result (λ effect. (locals : List Word) (s : Store) →
        effect_of effect operands.new.values locals s ≡ do_plain plain.select operands.old.values locals s) }
    ensures below { operands.new.below ≡ operands.old.below }
{
    let Some(condition) = operands.pop32() else {
        return Ok(Effect::Sticks);
    };
    let Some(second) = operands.pop() else {
        return Ok(Effect::Sticks);
    };
    let Some(first) = operands.pop() else {
        return Ok(Effect::Sticks);
    };
    operands.push(if condition == 0 { second } else { first })?;
    Ok(Effect::Goes)
}

/// `local.get`.
pub fn local_get(local: u32, operands: &mut Operands, locals: &[Word]) -> Result<Effect, AllocError>
    ensures effect { IfOk result (λ effect. (s : Store) →
        effect_of effect operands.new.values locals.now s ≡ do_plain (plain.local_get local) operands.old.values locals.now s) }
    ensures below { operands.new.below ≡ operands.old.below }
{
    match locals.get(local as usize) {
        None => Ok(Effect::Sticks),
        Some(word) => {
            operands.push(*word)?;
            Ok(Effect::Goes)
        }
    }
}

/// `local.set`.
pub fn local_set(local: u32, operands: &mut Operands, locals: &mut [Word]) -> Effect
    ensures effect { (s : Store) →
        effect_of result operands.new.values locals.new s ≡ do_plain (plain.local_set local) operands.old.values locals.old s }
    ensures below { operands.new.below ≡ operands.old.below }
{
    match operands.pop() {
        None => Effect::Sticks,
        Some(word) => after_write(put(local, word, locals)),
    }
}

/// `local.tee`.
pub fn local_tee(
    local: u32,
    operands: &mut Operands,
    locals: &mut [Word],
) -> Result<Effect, AllocError>
    ensures effect { IfOk result (λ effect. (s : Store) →
        effect_of effect operands.new.values locals.new s ≡ do_plain (plain.local_tee local) operands.old.values locals.old s) }
    ensures below { operands.new.below ≡ operands.old.below }
{
    let Some(word) = operands.pop() else {
        return Ok(Effect::Sticks);
    };
    if !put(local, word, locals) {
        return Ok(Effect::Sticks);
    }
    operands.push(word)?;
    Ok(Effect::Goes)
}

/// `global.get`.
pub fn global_get(
    global: u32,
    operands: &mut Operands,
    globals: &[Word],
) -> Result<Effect, AllocError>
    ensures effect { IfOk result (λ effect. (locals : List Word) (s : Store) →
        effect_of effect operands.new.values locals (with_globals globals.now s)
        ≡ do_plain (plain.global_get global) operands.old.values locals (with_globals globals.now s)) }
    ensures below { operands.new.below ≡ operands.old.below }
{
    match globals.get(global as usize) {
        None => Ok(Effect::Sticks),
        Some(word) => {
            operands.push(*word)?;
            Ok(Effect::Goes)
        }
    }
}

/// `global.set`.
pub fn global_set(global: u32, operands: &mut Operands, globals: &mut [Word]) -> Effect
    ensures effect { (locals : List Word) (s : Store) →
        effect_of result operands.new.values locals (with_globals globals.new s)
        ≡ do_plain (plain.global_set global) operands.old.values locals (with_globals globals.old s) }
    ensures keeps { (s : Store) → Keeps result (with_globals globals.new s) (with_globals globals.old s) }
    ensures below { operands.new.below ≡ operands.old.below }
{
    match operands.pop() {
        None => Effect::Sticks,
        Some(word) => after_write(put(global, word, globals)),
    }
}

// Writes a variable. False, and nothing is changed, exactly where there is no such variable.
fn put(index: u32, word: Word, variables: &mut [Word]) -> bool
    ensures { MatchOption (slice_get variables.old index)
        ((result ≡ false) × (variables.new ≡ variables.old))
        (λ _. (result ≡ true) × (variables.new ≡ slice_set variables.old index word)) }
{
    let place = index as usize;
    if place < variables.len() {
        variables[place] = word;
        true
    } else {
        false
    }
}

// What becomes of a run at a write.
fn after_write(is_written: bool) -> Effect
    ensures { result ≡ (if is_written then Effect.Goes else Effect.Sticks) }
{
    if is_written {
        Effect::Goes
    } else {
        Effect::Sticks
    }
}
