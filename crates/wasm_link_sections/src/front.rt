// The sections of types, imports and functions.

ghost use Rattle.std.specs.Prelude.{◌≡◌, ◌≤◌, ◌^◌, ◌+◌, ◌++◌, map, IfOk, OnOk};
ghost use Rattle.sem_words.specs.Lists.{list_items};
ghost use Rattle.wasm_tree.specs.Views.{import_of, type_of};
ghost use Rattle.wasm_link_code.specs.Linked as linked;
ghost use Rattle.wasm_link_sections.specs.Made as made;

use crate::values::sum_of;
use sem_words::List;
use std::alloc::{AllocError, Global};
use wasm_lang::{ImportKind, Limits, ValType};
use wasm_link_bind::{Exporting, bound_to};
use wasm_tree::{Bytes, FuncType, Import};

/// The types of both modules.
pub fn types(
    alloc: Global,
    first: &[FuncType],
    second: &[FuncType],
) -> Result<List<FuncType>, AllocError>
    ensures { IfOk result (λ types. map type_of (list_items types) ≡ map type_of first.now ++ map type_of second.now) }
{
    let mut types = Vec::with_capacity(alloc, first.len())?;
    push_types(alloc, &mut types, first)?;
    push_types(alloc, &mut types, second)?;
    Ok(List::from_vec(types))
}

fn push_types(alloc: Global, types: &mut Vec<FuncType>, more: &[FuncType]) -> Result<(), AllocError>
    ensures { OnOk result (map type_of types.new.items ≡ map type_of types.old.items ++ map type_of more.now) }
{
    for t in more {
        types.push(FuncType {
            params: copied(alloc, &t.params)?,
            results: copied(alloc, &t.results)?,
        })?;
    }
    Ok(())
}

fn copied(alloc: Global, types: &List<ValType>) -> Result<List<ValType>, AllocError>
    ensures { IfOk result (λ copy. list_items copy ≡ list_items types.now) }
{
    Ok(List::from_vec(Vec::from_slice(alloc, types.as_slice())?))
}

/// Appends the imports of a module that stay, with types that stand so many after.
pub fn push_imports<'a>(
    imports: &mut Vec<Import<'a>>,
    own: &Exporting<'a>,
    other: &Exporting<'_>,
    types: usize,
) -> Result<(), AllocError>
    requires { types ≤ 2 ^ 63 }
    ensures { OnOk result (map import_of imports.new.items ≡ map import_of imports.old.items ++ made.imports_made other.now types own.now.imports) }
{
    for import in own.valid().module().imports.as_slice() {
        if stays(other, import) {
            imports.push(moved(import, types))?;
        }
    }
    Ok(())
}

fn stays(other: &Exporting<'_>, import: &Import<'_>) -> bool
    ensures { result ≡ linked.stays other.now (import_of import.now) }
{
    match import.kind {
        ImportKind::Func(_) => bound_to(other, import).is_none(),
        ImportKind::Global(_) => true,
        ImportKind::Table(_) | ImportKind::Memory(_) => false,
    }
}

// The import, whose type stands so many after.
fn moved<'m>(import: &'m Import<'_>, types: usize) -> Import<'m>
    requires { types ≤ 2 ^ 63 }
    ensures { import_of result ≡ made.import_made types (import_of import.now) }
{
    Import {
        module: Bytes::Lent(import.module.as_bytes()),
        field: Bytes::Lent(import.field.as_bytes()),
        kind: moved_kind(import.kind, types),
    }
}

fn moved_kind(kind: ImportKind, types: usize) -> ImportKind
    requires { types ≤ 2 ^ 63 }
    ensures { result ≡ made.kind_made types kind }
{
    match kind {
        ImportKind::Func(t) => ImportKind::Func(sum_of(types, t)),
        ImportKind::Table(_) | ImportKind::Memory(_) | ImportKind::Global(_) => kind,
    }
}

/// Appends the memory, where there is one.
pub fn push_memory(
    imports: &mut Vec<Import<'_>>,
    least: Option<u32>,
    most: Option<u32>,
) -> Result<(), AllocError>
    ensures { OnOk result (map import_of imports.new.items ≡ map import_of imports.old.items ++ linked.memory_import least most) }
{
    if let Some(min) = least {
        imports.push(Import {
            module: Bytes::Lent(b"env"),
            field: Bytes::Lent(b"memory"),
            kind: ImportKind::Memory(Limits { min, max: most }),
        })?;
    }
    Ok(())
}
