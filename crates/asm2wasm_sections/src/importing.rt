//! Imports.
ghost use Rattle.std.specs.Prelude.{◌≡◌, ◌++◌, true, codes, map, IfOk, OnOk};
ghost use Rattle.sem_words.specs.Lists.{list_items, text_bytes};
ghost use Rattle.wasm_lang.specs.declared.types.ImportKind.TheVariants as kinds;
ghost use Rattle.wasm_tree.specs.Views.{import_of};
ghost use Rattle.asm_tree.specs.Views.{module_view, texts_view};
ghost use Rattle.asm_validate_limits.specs.Called.{foreign_view};
ghost use Rattle.asm2wasm_lang.specs.Heaps.{is_heap_length, pages_for};
ghost use Rattle.asm2wasm_lang.specs.Calling.{exactly};
ghost use Rattle.asm2wasm_translation.specs.Modules.{imports_of, imported_function, imported_global, from_env};
ghost use Rattle.asm2wasm_sections.specs.Few.{FewTypes};

use crate::heaps::pages_for;
use asm_validate::ForeignCall;
use asm2wasm_numbers::ModuleNumbers;
use sem_words::{List, Text};
use std::alloc::{AllocError, Global};
use wasm_tree::{Bytes, GlobalType, Import, ImportKind, Limits, ValType};

/// The foreign functions, then the foreign variables, then the memory, where there is a heap, of this length.
pub fn imports<'a>(
    alloc: Global,
    numbers: &ModuleNumbers<'a>,
    heap: u32,
) -> Result<List<Import<'a>>, AllocError>
    requires few { FewTypes (module_view numbers.now) }
    requires length { is_heap_length heap ≡ true }
    ensures { IfOk result (λ imports. map import_of (list_items imports) ≡ imports_of (module_view numbers.now) heap) }
{
    let checked = numbers.checked();
    let mut imports = Vec::new(alloc);
    put_functions(&mut imports, checked.foreign_calls(), numbers)?;
    put_globals(&mut imports, checked.foreign_globals())?;
    if checked.has_heap() {
        imports.push(memory(heap))?;
    }
    Ok(List::from_vec(imports))
}

fn put_functions<'a>(
    imports: &mut Vec<Import<'a>>,
    calls: &[ForeignCall],
    numbers: &ModuleNumbers<'a>,
) -> Result<(), AllocError>
    requires few { FewTypes (module_view numbers.now) }
    ensures { OnOk result (map import_of imports.new.items ≡ map import_of imports.old.items ++ map (imported_function (module_view numbers.now)) (map (foreign_view (module_view numbers.now)) calls.now)) }
{
    for call in calls {
        imports.push(function(call, numbers))?;
    }
    Ok(())
}

fn function<'a>(call: &ForeignCall, numbers: &ModuleNumbers<'a>) -> Import<'a>
    requires few { FewTypes (module_view numbers.now) }
    ensures { import_of result ≡ imported_function (module_view numbers.now) (foreign_view (module_view numbers.now) call.now) }
{
    let number = numbers.type_number(call.params as usize, call.result);
    let name = call.name(numbers.checked().module());
    from_env(name, ImportKind::Func(number as u32))
}

fn put_globals<'a>(imports: &mut Vec<Import<'a>>, names: &'a [Text]) -> Result<(), AllocError>
    ensures { OnOk result (map import_of imports.new.items ≡ map import_of imports.old.items ++ map imported_global (texts_view names.now)) }
{
    for name in names {
        imports.push(global(name))?;
    }
    Ok(())
}

fn global(name: &Text) -> Import<'_>
    ensures { import_of result ≡ imported_global (text_bytes name.now) }
{
    let kind = GlobalType {
        kind: ValType::I32,
        mutable: false,
    };
    from_env(name.as_bytes(), ImportKind::Global(kind))
}

fn memory(heap: u32) -> Import<'static>
    requires { is_heap_length heap ≡ true }
    ensures { import_of result ≡ from_env (codes "memory") (kinds.Memory (exactly (pages_for heap))) }
{
    let pages = pages_for(heap);
    Import {
        module: Bytes::Lent(b"env"),
        field: Bytes::Lent(b"memory"),
        kind: ImportKind::Memory(Limits {
            min: pages,
            max: Some(pages),
        }),
    }
}

fn from_env<'a>(name: &'a [u8], kind: ImportKind) -> Import<'a>
    ensures { import_of result ≡ from_env name.now kind }
{
    Import {
        module: Bytes::Lent(b"env"),
        field: Bytes::Lent(name),
        kind,
    }
}
