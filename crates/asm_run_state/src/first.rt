//! Where a session begins.
ghost use Rattle.std.specs.Prelude.{◌≡◌, IfOk};
ghost use Rattle.std.specs.Str.{bytes_eq};
ghost use Rattle.heap_lang.specs.Heap.{IsHeapLength};
ghost use Rattle.session_lang.specs.Views.{script_of};
ghost use Rattle.asm_lang.specs.Modules as plain;
ghost use Rattle.asm_tree.specs.Views.{init_view, module_view};
ghost use Rattle.asm_lang_valid.specs.Refusal as refusal;
ghost use Rattle.asm_lang_valid.specs.Scope.{init_meaning, constructors, constructor_in, viewed};
ghost use Rattle.asm_lang_exec.specs.Session.{first_heap};
ghost use Rattle.asm_run_steps.specs.Worlds.{world_of};
ghost use Rattle.asm_run_state.specs.Globals.{first_world};

use crate::globals::first_globals;
use asm_run_steps::World;
use asm_tree::{Init, Module};
use heap_views::Heap;
use sem_words::List;
use session_lang::{End, Script};
use session_replies::{Replies, put_writes};
use std::alloc::{AllocError, Global};

/// The world of a module with a heap of this length, the script and the budget, before the first call. It takes the memory of the
/// heap and of the module's variables, and while it is made that of a map of the script's lines of globals.
pub fn first_world<'a>(
    alloc: Global,
    module: &Module,
    heap_length: u32,
    script: &'a Script,
    units: u64,
) -> Result<World<'a>, AllocError>
    requires { IsHeapLength heap_length }
    ensures { IfOk result (λ w. world_of w ≡ first_world (module_view «module».now) heap_length (script_of script.now) units) }
{
    let globals = first_globals(alloc, script, module.globals.as_slice())?;
    let heap = first_heap(alloc, module, heap_length, script)?;
    Ok(World {
        globals,
        heap,
        replies: Replies::of(script),
        events: List::new(alloc),
        units,
        ending: End::Done,
    })
}

// The heap with the script's bytes; a module without a view of integers has none.
#[tactic(auto, using(asm_run_steps::proofs::Writes::puts_are_writes))]
fn first_heap(
    alloc: Global,
    module: &Module,
    heap_length: u32,
    script: &Script,
) -> Result<Heap, AllocError>
    requires { IsHeapLength heap_length }
    ensures { IfOk result (λ heap. heap ≡ first_heap (module_view «module».now) heap_length (script_of script.now)) }
{
    let length = if has_heap(module) { heap_length } else { 0 };
    let mut heap = Heap::new(alloc, length)?;
    put_writes(&mut heap, script.writes.as_slice());
    Ok(heap)
}

/// Whether the module has a heap: it declares a view of integers.
pub fn has_heap(module: &Module) -> bool
    ensures { result ≡ refusal.has_heap (module_view «module».now) }
{
    for global in module.globals.as_slice() {
        if is_view(&global.init) {
            return true;
        }
    }
    false
}

// Whether a declaration is of a view of integers, which doesn't rest on its module.
fn is_view(init: &Init) -> bool
    ensures { (m : plain.Module) → result ≡ refusal.is_view (init_meaning m (init_view init.now)) }
{
    match init {
        Init::View(_, constructor, _) => is_integer_array(constructor.as_bytes()),
        Init::Number(_)
        | Init::Decimal(_)
        | Init::ForeignInt(_, _)
        | Init::ForeignDouble(_, _)
        | Init::Member(_, _)
        | Init::Math(_, _) => false,
    }
}

// Whether it is the name of a constructor of views of integers.
fn is_integer_array(name: &[u8]) -> bool
    ensures { result ≡ refusal.is_view (viewed (constructor_in constructors name.now)) }
{
    is_word(b"Int8Array", name)
        || is_word(b"Uint8Array", name)
        || is_word(b"Int16Array", name)
        || is_word(b"Uint16Array", name)
        || is_word(b"Int32Array", name)
        || is_word(b"Uint32Array", name)
}

fn is_word(word: &[u8], name: &[u8]) -> bool
    ensures { result ≡ bytes_eq word.now name.now }
{
    word == name
}
