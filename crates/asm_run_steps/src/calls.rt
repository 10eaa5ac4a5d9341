//! Calls.
ghost use Rattle.std.specs.Prelude.{◌≡◌, ◌+◌, IfOk, slice_get, option_and_then};
ghost use Rattle.sem_words.specs.Lists.{list_items};
ghost use Rattle.session_lang.specs.Views.{end_of};
ghost use Rattle.asm_run_code.specs.Machine.{Codes, words_from};
ghost use Rattle.asm_run_code.specs.declared.op.Op.TheVariants as ops;
ghost use Rattle.asm_run_steps.specs.Plain.{WordsPlain, slot_word};
ghost use Rattle.asm_run_steps.specs.Worlds.{world_of};
ghost use Rattle.asm_run_steps.specs.Linked.{codes_in};
ghost use Rattle.asm_run_steps.specs.Flows.{Does, Falls};

use crate::flow::{Flow, Leaving};
use crate::linked::Linked;
use crate::words::Words;
use crate::world::World;
use sem_words::{List, Word};
use std::alloc::{AllocError, Global};

/// A call of a function, for which a unit is taken.
#[inline(always)]
pub fn call(world: &mut World<'_>, at: u32, function: u32, first: u32) -> Flow
    ensures shown { (c : Codes) (words : WordsPlain) → Does c (ops.Call function first) at words (world_of world.old) result (end_of world.new.ending) words (world_of world.new) }
    ensures falls { Falls at result world.old.units world.new.units }
{
    if !world.pay() {
        return Flow::Off(Leaving::Unpaid);
    }
    Flow::Off(Leaving::Call(function, first))
}

// The function that a table has at an index.
fn entry(linked: Linked<'_>, table: u32, index: u32) -> Option<u32>
    ensures { result ≡ option_and_then (λ numbers. slice_get numbers index) (slice_get (codes_in linked.entry).tables table) }
{
    match linked.tables.get(table as usize) {
        None => None,
        Some(members) => members.as_slice().get(index as usize).copied(),
    }
}

/// A call of the function that a table has at the index in a slot.
pub fn call_entry(
    linked: Linked<'_>,
    words: &Words,
    world: &mut World<'_>,
    at: u32,
    table: u32,
    index: u32,
    first: u32,
) -> Flow
    ensures shown { Does (codes_in linked.entry) (ops.CallEntry table index first) at words.now (world_of world.old) result (end_of world.new.ending) words.now (world_of world.new) }
    ensures falls { Falls at result world.old.units world.new.units }
{
    match entry(linked, table, words.get(index)) {
        None => Flow::Off(Leaving::Lost),
        Some(function) => call(world, at, function, first),
    }
}

// The words of so many slots from one on.
fn words_of(alloc: Global, words: &Words, first: u32, count: u32) -> Result<List<Word>, AllocError>
    ensures { IfOk result (λ args. list_items args ≡ words_from words.now.all (words.now.base + first) count) }
{
    let mut args = Vec::new(alloc);
    for i in 0..count {
        args.push(Word::W32(words.get_after(first, i)))?;
    }
    Ok(List::from_vec(args))
}

/// A call of a foreign member with the words of so many slots from one on. The answer's word comes into that slot.
#[inline(never)]
pub fn call_import(
    alloc: Global,
    linked: Linked<'_>,
    words: &mut Words,
    world: &mut World<'_>,
    at: u32,
    member: u32,
    count: u32,
    first: u32,
) -> Result<Flow, AllocError>
    ensures shown { IfOk result (λ flow. Does (codes_in linked.entry) (ops.CallImport member count first) at words.old (world_of world.old) flow (end_of world.new.ending) words.new (world_of world.new)) }
    ensures falls { IfOk result (λ flow. Falls at flow world.old.units world.new.units) }
{
    let Some(name) = linked.members.get(member as usize) else {
        return Ok(Flow::Off(Leaving::Lost));
    };
    let args = words_of(alloc, words, first, count)?;
    match world.call_import(alloc, name, args)? {
        None => Ok(Flow::Off(Leaving::Halted)),
        Some(word) => {
            words.put(first, word)?;
            Ok(Flow::On(at))
        }
    }
}
