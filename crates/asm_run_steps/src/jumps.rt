//! Operations that say where a function goes on.
ghost use Rattle.std.specs.Prelude.{◌≡◌, ◌-◌, ◌≤◌, ◌==◌, if◌then◌else◌, IfOk};
ghost use Rattle.session_lang.specs.Views.{end_of};
ghost use Rattle.sem_words.specs.Words.{sub_of};
ghost use Rattle.asm_run_code.specs.Machine.{Codes, lesser};
ghost use Rattle.asm_run_code.specs.declared.op.Op.TheVariants as ops;
ghost use Rattle.asm_run_steps.specs.Plain.{slot_word};
ghost use Rattle.asm_run_steps.specs.Worlds.{world_of};
ghost use Rattle.asm_run_steps.specs.Flows.{Does, Falls, jumped};
ghost use Rattle.asm_run_steps.specs.declared.flow.Flow.TheVariants as flows;

use crate::flow::{Flow, Leaving};
use crate::words::Words;
use crate::world::World;
use std::alloc::AllocError;

/// To an address, which isn't above the one that follows the jump.
#[inline(always)]
pub fn jump(at: u32, to: u32) -> Flow
    ensures { result ≡ jumped at to }
{
    if to <= at {
        Flow::On(to)
    } else {
        Flow::Off(Leaving::Lost)
    }
}

/// The same where a slot holds a word.
#[inline(always)]
pub fn jump_at(words: &Words, at: u32, slot: u32, word: u32, to: u32) -> Flow
    ensures { result ≡ (if slot_word words.now slot == word then jumped at to else flows.On at) }
{
    if words.get(slot) == word {
        jump(at, to)
    } else {
        Flow::On(at)
    }
}

/// The address past as many operations as a slot's word less `low`, or past all `count`.
#[inline(always)]
pub fn chosen(words: &Words, at: u32, slot: u32, low: u32, count: u32) -> u32
    ensures address { result ≡ at - lesser (sub_of 32 (slot_word words.now slot) low) count }
    ensures below { result ≤ at }
{
    let over = words.get(slot).wrapping_sub(low);
    let over = if over < count { over } else { count };
    at.saturating_sub(over)
}

/// The beginning of a turn, whose address is written into a slot.
#[inline(always)]
pub fn turn(words: &mut Words, world: &mut World<'_>, at: u32, to: u32) -> Result<Flow, AllocError>
    ensures shown { IfOk result (λ flow. (c : Codes) → Does c (ops.Turn to) at words.old (world_of world.old) flow (end_of world.new.ending) words.new (world_of world.new)) }
    ensures falls { IfOk result (λ flow. Falls at flow world.old.units world.new.units) }
{
    if !world.pay() {
        return Ok(Flow::Off(Leaving::Unpaid));
    }
    words.put(to, at)?;
    Ok(Flow::On(at))
}

/// Another turn, at the address in a slot.
#[inline(always)]
pub fn again(words: &Words, world: &mut World<'_>, at: u32, slot: u32) -> Flow
    ensures shown { (c : Codes) → Does c (ops.Again slot) at words.now (world_of world.old) result (end_of world.new.ending) words.now (world_of world.new) }
    ensures falls { Falls at result world.old.units world.new.units }
{
    if !world.pay() {
        return Flow::Off(Leaving::Unpaid);
    }
    Flow::On(words.get(slot))
}
