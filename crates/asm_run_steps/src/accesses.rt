//! Variables of the module, and elements of views.
ghost use Rattle.std.specs.Prelude.{◌≡◌, OnOk, pos};
ghost use Rattle.heap_lang.specs.Heap.{load, store};
ghost use Rattle.asm_run_code.specs.Machine.{element_word};
ghost use Rattle.asm_run_code.specs.Slots as slots;
ghost use Rattle.asm_run_steps.specs.Plain.{slot_word, with_word};
ghost use Rattle.asm_run_steps.specs.Worlds.{world_of};

use crate::words::Words;
use crate::world::World;
use heap_lang::ViewKind;
use std::alloc::AllocError;

#[inline(always)]
pub fn read_global(
    words: &mut Words,
    world: &World<'_>,
    to: u32,
    global: u32,
) -> Result<(), AllocError>
    ensures { OnOk result (words.new ≡ with_word words.old to (slots.get (world_of world.now).globals global)) }
{
    let word = world.global(global);
    words.put(to, word)
}

#[inline(always)]
pub fn write_global(
    words: &Words,
    world: &mut World<'_>,
    global: u32,
    from: u32,
) -> Result<(), AllocError>
    ensures { OnOk result (world_of world.new ≡ record (world_of world.old) { globals = slots.put (world_of world.old).globals global (slot_word words.now from) }) }
{
    let word = words.get(from);
    world.set_global(global, word)
}

#[inline(always)]
pub fn read_element(
    words: &mut Words,
    world: &World<'_>,
    kind: ViewKind,
    to: u32,
    index: u32,
) -> Result<(), AllocError>
    ensures { OnOk result (words.new ≡ with_word words.old to (element_word (load kind (pos (slot_word words.old index)) (world_of world.now).heap))) }
{
    let word = world.read_element(kind, words.get(index));
    words.put(to, word)
}

#[inline(always)]
pub fn write_element(words: &Words, world: &mut World<'_>, kind: ViewKind, index: u32, from: u32)
    ensures { world_of world.new ≡ record (world_of world.old) { heap = store kind (pos (slot_word words.now index)) (slot_word words.now from) (world_of world.old).heap } }
{
    let place = words.get(index);
    let word = words.get(from);
    world.write_element(kind, place, word);
}
