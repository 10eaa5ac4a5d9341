//! Imports, with the limits on how many functions and globals there are.
ghost use Rattle.std.specs.Prelude.{◌≡◌, ◌+◌, ◌<◌, ◌≤◌, [], ◌∷◌, map, IfOk};
ghost use Rattle.wasm_lang.specs.Limits.{function_imports, global_imports};
ghost use Rattle.wasm_lang.specs.declared.types.ImportKind.TheVariants as kinds;
ghost use Rattle.wasm_lang.specs.Reading as reading;
ghost use Rattle.wasm_lang.specs.ReadingModule as modules;
ghost use Rattle.wasm_tree.specs.Inputs.{input_of, IsField, IsRead, Continues};
ghost use Rattle.wasm_tree.specs.Views.{import_of};
ghost use Rattle.sem_words.specs.Lists.{list_items};
ghost use Rattle.wasm_binary_entries.specs.Lent.{source_of, IsLentImport, EachAt, Located};
ghost use Rattle.wasm_binary_entries.specs.Places.{import_places};
ghost use Rattle.wasm_binary_entries.specs.Views.{imports_of};

use crate::fields::{global_type, memory, name, number, table, within};
use sem_words::List;
use std::alloc::Global;
use wasm_tree::{Fault, Import, ImportKind, Input, ReadError, Row};

/// The most functions of a module that this reader takes, with the imported ones.
pub const MOST_FUNCTIONS: usize = 80_000;
/// The most globals, with the imported ones.
pub const MOST_GLOBALS: usize = 220_000;

// A function that is imported, by the number of its type.
fn imported_function<'a>(input: Input<'a>) -> Result<(ImportKind, Input<'a>), Fault>
    ensures value { IsField (λ k. k) result (reading.onto kinds.Func (reading.u32 (input_of input.entry))) }
    ensures follows { IfOk result (λ x. Continues x.1 input.entry) }
{
    let (n, rest) = number(input)?;
    Ok((ImportKind::Func(n), rest))
}

// A table that is imported.
fn imported_table<'a>(input: Input<'a>) -> Result<(ImportKind, Input<'a>), Fault>
    ensures value { IsField (λ k. k) result (reading.onto kinds.Table (modules.table_field (input_of input.entry))) }
    ensures follows { IfOk result (λ x. Continues x.1 input.entry) }
{
    let (limits, rest) = table(input)?;
    Ok((ImportKind::Table(limits), rest))
}

// A memory that is imported.
fn imported_memory<'a>(input: Input<'a>) -> Result<(ImportKind, Input<'a>), Fault>
    ensures value { IsField (λ k. k) result (reading.onto kinds.Memory (modules.memory_field (input_of input.entry))) }
    ensures follows { IfOk result (λ x. Continues x.1 input.entry) }
{
    let (limits, rest) = memory(input)?;
    Ok((ImportKind::Memory(limits), rest))
}

// A global that is imported.
fn imported_global<'a>(input: Input<'a>) -> Result<(ImportKind, Input<'a>), Fault>
    ensures value { IsField (λ k. k) result (reading.onto kinds.Global (modules.global_type_field (input_of input.entry))) }
    ensures follows { IfOk result (λ x. Continues x.1 input.entry) }
{
    let (kind, rest) = global_type(input)?;
    Ok((ImportKind::Global(kind), rest))
}

// What is imported, where so many functions and globals were imported before it.
fn import_kind<'a>(
    input: Input<'a>,
    functions: usize,
    globals: usize,
) -> Result<(ImportKind, Input<'a>), Fault>
    ensures value { IsField (λ k. k) result (modules.import_kind_field functions globals (input_of input.entry)) }
    ensures follows { IfOk result (λ x. Continues x.1 input.entry) }
{
    let (byte, rest) = input.byte(Row::SectionSize)?;
    let row = match byte {
        0x00 if within(functions, 1, MOST_FUNCTIONS) => return imported_function(rest),
        0x01 => return imported_table(rest),
        0x02 => return imported_memory(rest),
        0x03 if within(globals, 1, MOST_GLOBALS) => return imported_global(rest),
        0x00 | 0x03 => Row::Limit,
        _ => Row::UnknownByte,
    };
    Err(Fault { row, at: input.at })
}

// An import, where so many functions and globals were imported before it.
fn import<'a>(
    input: Input<'a>,
    functions: usize,
    globals: usize,
) -> Result<(Import<'a>, Input<'a>), Fault>
    ensures value { IsField import_of result (modules.import_field functions globals (input_of input.entry)) }
    ensures follows { IfOk result (λ x. Continues x.1 input.entry) }
    ensures lent { IfOk result (λ x. Located (import_places (input_of input.entry)) (input_of x.1) (λ places. IsLentImport (source_of input.entry) places x.0)) }
{
    let (module, rest) = name(input)?;
    let (field, rest) = name(rest)?;
    let (kind, rest) = import_kind(rest, functions, globals)?;
    Ok((
        Import {
            module,
            field,
            kind,
        },
        rest,
    ))
}

// 1 where a function is imported.
fn functions_in(import: &Import<'_>) -> usize
    ensures one { result ≤ 1 }
    ensures count { result ≡ function_imports (import_of import.now ∷ []) }
{
    match import.kind {
        ImportKind::Func(_) => 1,
        _ => 0,
    }
}

// 1 where a global is imported.
fn globals_in(import: &Import<'_>) -> usize
    ensures one { result ≤ 1 }
    ensures count { result ≡ global_imports (import_of import.now ∷ []) }
{
    match import.kind {
        ImportKind::Global(_) => 1,
        _ => 0,
    }
}

/// So many imports.
pub fn imports<'a>(
    alloc: Global,
    input: Input<'a>,
    count: u32,
) -> Result<(List<Import<'a>>, Input<'a>), ReadError>
    ensures value { IsRead imports_of result (modules.imports_field 0 0 count (input_of input.entry)) }
    ensures follows { IfOk result (λ x. Continues x.1 input.entry) }
    ensures lent { IfOk result (λ x. Located (reading.items_field import_places count (input_of input.entry)) (input_of x.1) (λ places. EachAt (IsLentImport (source_of input.entry)) places (list_items x.0))) }
{
    let mut list = List::new(alloc);
    let mut functions: usize = 0;
    let mut globals: usize = 0;
    let mut rest = input;
    for _i in 0..count {
        let (item, after) = import(rest, functions, globals)?;
        functions += functions_in(&item);
        globals += globals_in(&item);
        if list.push(item).is_err() {
            return Err(ReadError::Memory);
        }
        rest = after;
    }
    Ok((list, rest))
}

/// How many imports are functions.
pub fn function_count(imports: &[Import<'_>]) -> usize
    ensures { result ≡ function_imports (map import_of imports.now) }
{
    let mut n: usize = 0;
    for import in imports {
        n += functions_in(import);
    }
    n
}

/// How many imports are globals.
pub fn global_count(imports: &[Import<'_>]) -> usize
    ensures { result ≡ global_imports (map import_of imports.now) }
{
    let mut n: usize = 0;
    for import in imports {
        n += globals_in(import);
    }
    n
}
