// What a session begins with.

ghost use Rattle.std.specs.Prelude.{◌≡◌, ◌*◌, ◌++◌, [], None, map, replicate, IfOk, OnOk};
ghost use Rattle.heap_lang.specs.Heap.{IsHeapLength};
ghost use Rattle.session_lang.specs.Imports.{first_replies};
ghost use Rattle.session_lang.specs.Names as names;
ghost use Rattle.session_lang.specs.Views.{script_of};
ghost use Rattle.wasm_tree.specs.Views.{bytes_of, import_of, module_of};
ghost use Rattle.wasm_lang_valid.specs.Runnable.{not_runnable, pages};
ghost use Rattle.wasm_lang_exec.specs.Session as session;
ghost use Rattle.wasm_lang_exec.specs.Store.{word_of_type};
ghost use Rattle.wasm_run_operands.specs.Effects.{store_of};

use crate::words::word_for;
use crate::writes::memory_pages;
use heap_views::Heap;
use script_lines::Lines;
use sem_words::Word;
use session_lang::{Script, import_name};
use session_replies::put_writes;
use std::alloc::{AllocError, Global};
use wasm_lang::{ImportKind, ValType};
use wasm_run_operands::State;
use wasm_run_start::add_first_values;
use wasm_tree::{Import, Module};

// The bytes of the memory; a module without one has none.
fn memory_length(module: &Module<'_>) -> u32
    requires { not_runnable (module_of «module».now) ≡ None }
    ensures length { result ≡ session.bytes_in (pages (module_of «module».now)) }
    ensures fits { IsHeapLength result }
{
    match memory_pages(module) {
        None => 0,
        Some(pages) => pages * 65536,
    }
}

// The memory with the script's bytes.
#[tactic(auto, using(wasm_run_machine::proofs::Asked::puts_are_writes))]
fn first_memory(alloc: Global, module: &Module<'_>, script: &Script) -> Result<Heap, AllocError>
    requires { not_runnable (module_of «module».now) ≡ None }
    ensures { IfOk result (λ memory. memory ≡ session.first_memory (module_of «module».now) (script_of script.now)) }
{
    let mut memory = Heap::new(alloc, memory_length(module))?;
    put_writes(&mut memory, script.writes.as_slice());
    Ok(memory)
}

// The value that the lines give to an import.
fn value_for(
    alloc: Global,
    lines: &Lines<'_>,
    import: &Import<'_>,
    kind: ValType,
) -> Result<Word, AllocError>
    ensures { IfOk result (λ value. value ≡ session.given_value lines.now (names.import_name (bytes_of import.now.«module») (bytes_of import.now.field)) kind) }
{
    let name = import_name(alloc, import.module.as_bytes(), import.field.as_bytes())?;
    Ok(word_given(lines, name.as_bytes(), kind))
}

// The word of a type that the lines give to a name.
#[tactic(auto, using(crate::proofs::GivenWords::word_given, crate::proofs::GivenWords::no_word_given))]
fn word_given(lines: &Lines<'_>, name: &[u8], kind: ValType) -> Word
    ensures { result ≡ session.given_value lines.now name.now kind }
{
    match lines.given(name) {
        Some(number) => word_for(kind, number),
        None => zero_of(kind),
    }
}

// The word of a type that stands for 0.
fn zero_of(kind: ValType) -> Word
    ensures { result ≡ word_of_type kind 0 }
{
    match kind {
        ValType::I32 => Word::W32(0),
        ValType::I64 => Word::W64(0),
    }
}

// The values of imported globals.
fn add_imported(
    alloc: Global,
    values: &mut Vec<Word>,
    script: &Script,
    imports: &[Import<'_>],
) -> Result<(), AllocError>
    ensures { OnOk result (values.new.items ≡ values.old.items ++ session.imported_globals (script_of script.now) (map import_of imports.now)) }
{
    let lines = Lines::new(alloc, script.globals.as_slice())?;
    for import in imports {
        if let ImportKind::Global(global) = import.kind {
            values.push(value_for(alloc, &lines, import, global.kind)?)?;
        }
    }
    Ok(())
}

// The values of all globals, the imported ones first.
fn first_globals(
    alloc: Global,
    module: &Module<'_>,
    script: &Script,
) -> Result<Vec<Word>, AllocError>
    ensures { IfOk result (λ values. values.items ≡ session.first_globals (module_of «module».now) (script_of script.now)) }
{
    let mut given = Vec::new(alloc);
    add_imported(alloc, &mut given, script, module.imports.as_slice())?;
    let mut values = given.clone()?;
    add_first_values(&mut values, &given, module.globals.as_slice())?;
    Ok(values)
}

// The table, all of whose entries are empty.
fn first_table(alloc: Global, module: &Module<'_>) -> Result<Vec<Option<u32>>, AllocError>
    ensures { IfOk result (λ table. table.items ≡ replicate (session.table_length (module_of «module».now).tables) None) }
{
    let length = match module.tables.get(0) {
        None => 0,
        Some(limits) => limits.min,
    };
    let table = vec![in alloc; None; length as usize]?;
    Ok(table)
}

/// What a session begins with: it takes all the memory that the session writes to.
pub fn first_state(alloc: Global, module: &Module<'_>, script: &Script) -> Result<State, AllocError>
    requires { not_runnable (module_of «module».now) ≡ None }
    ensures { IfOk result (λ state. store_of state [] (first_replies (script_of script.now)) ≡ session.first_store (module_of «module».now) (script_of script.now)) }
{
    let memory = first_memory(alloc, module, script)?;
    let globals = first_globals(alloc, module, script)?;
    let table = first_table(alloc, module)?;
    Ok(State {
        memory,
        globals,
        table,
    })
}
