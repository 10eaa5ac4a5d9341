//! Single operations.
ghost use Rattle.std.specs.Prelude.{IfOk};
ghost use Rattle.session_lang.specs.Views.{end_of};
ghost use Rattle.asm_run_steps.specs.Worlds.{world_of};
ghost use Rattle.asm_run_steps.specs.Linked.{codes_in};
ghost use Rattle.asm_run_steps.specs.Flows.{Does, Falls};

use crate::accesses::{read_element, read_global, write_element, write_global};
use crate::calls::{call, call_entry, call_import};
use crate::computing::{apply, apply_number, copy, count_zeros, negate, turn_over};
use crate::flow::{Flow, Leaving};
use crate::jumps::{again, chosen, jump, jump_at, turn};
use crate::linked::Linked;
use crate::words::Words;
use crate::world::World;
use asm_run_code::Op;
use std::alloc::{AllocError, Global};

/// Does an operation, where the address that follows is `at`.
#[inline(always)]
pub fn step(
    alloc: Global,
    linked: Linked<'_>,
    op: Op,
    at: u32,
    words: &mut Words,
    world: &mut World<'_>,
) -> Result<Flow, AllocError>
    ensures shown { IfOk result (λ flow. Does (codes_in linked.entry) op at words.old (world_of world.old) flow (end_of world.new.ending) words.new (world_of world.new)) }
    ensures falls { IfOk result (λ flow. Falls at flow world.old.units world.new.units) }
{
    match op {
        Op::Number { to, word } => {
            words.put(to, word)?;
            Ok(Flow::On(at))
        }
        Op::Copy { to, from } => {
            copy(words, to, from)?;
            Ok(Flow::On(at))
        }
        Op::ReadGlobal { to, global } => {
            read_global(words, world, to, global)?;
            Ok(Flow::On(at))
        }
        Op::WriteGlobal { global, from } => {
            write_global(words, world, global, from)?;
            Ok(Flow::On(at))
        }
        Op::Apply {
            operator,
            to,
            left,
            right,
        } => {
            apply(words, operator, to, left, right)?;
            Ok(Flow::On(at))
        }
        Op::ApplyNumber {
            operator,
            to,
            left,
            word,
        } => {
            apply_number(words, operator, to, left, word)?;
            Ok(Flow::On(at))
        }
        Op::Negate { to, from } => {
            negate(words, to, from)?;
            Ok(Flow::On(at))
        }
        Op::Complement { to, from } => {
            turn_over(words, to, from)?;
            Ok(Flow::On(at))
        }
        Op::Zeros { to, from } => {
            count_zeros(words, to, from)?;
            Ok(Flow::On(at))
        }
        Op::ReadElement { kind, to, index } => {
            read_element(words, world, kind, to, index)?;
            Ok(Flow::On(at))
        }
        Op::WriteElement { kind, index, from } => {
            write_element(words, world, kind, index, from);
            Ok(Flow::On(at))
        }
        Op::Go { at: to } => Ok(jump(at, to)),
        Op::Unless { slot, at: to } => Ok(jump_at(words, at, slot, 0, to)),
        Op::Case { slot, word, at: to } => Ok(jump_at(words, at, slot, word, to)),
        Op::Choose { slot, low, count } => Ok(Flow::On(chosen(words, at, slot, low, count))),
        Op::Turn { to } => Ok(turn(words, world, at, to)?),
        Op::Again { slot } => Ok(again(words, world, at, slot)),
        Op::Call { function, first } => Ok(call(world, at, function, first)),
        Op::CallEntry {
            table,
            index,
            first,
        } => Ok(call_entry(linked, words, world, at, table, index, first)),
        Op::CallImport {
            member,
            count,
            first,
        } => Ok(call_import(alloc, linked, words, world, at, member, count, first)?),
        Op::Give { from } => Ok(Flow::Off(Leaving::Give(words.get(from)))),
    }
}
