//! The whole module.
ghost use Rattle.std.specs.Prelude.{◌≡◌, true, map, IfOk};
ghost use Rattle.sem_words.specs.Lists.{list_items};
ghost use Rattle.wasm_tree.specs.Views.{type_of, import_of, global_of, export_of, element_of, module_of};
ghost use Rattle.wasm_lang.specs.Limits.{IsWithinReader};
ghost use Rattle.wasm_lang.specs.Shape.{IsShaped, IsWritable};
ghost use Rattle.wasm_lang_valid.specs.Profile.{IsInProfile};
ghost use Rattle.asm_tree.specs.Views.{module_view};
ghost use Rattle.asm_lang_valid.specs.Scope.{signature_of};
ghost use Rattle.asm2wasm_lang.specs.Allowed.{IsAllowed, IsBounded};
ghost use Rattle.asm2wasm_lang.specs.Heaps.{is_heap_length};
ghost use Rattle.asm2wasm_lang.specs.Calling.{exports_given};
ghost use Rattle.asm2wasm_translation.specs.Numbers.{signatures, type_number, int_variables};
ghost use Rattle.asm2wasm_translation.specs.Modules.{type_for, imports_of, table_for, global_for, elements_for, translation};
ghost use Rattle.asm2wasm_lang.specs.Small.{IsSmall};
ghost use Rattle.asm2wasm_lang.specs.Short.{IsOfShortText};
ghost use Rattle.asm2wasm_sections.specs.Few.{FewTypes, FewFunctions, FewEntries, FewGlobals};
ghost use Rattle.asm2wasm.specs.Narrow.{AreNarrow};
ghost use Rattle.asm2wasm_lang.specs.Parts.{NeverTraps, HasFunctions, HasTables};

use crate::bodies::bodies;
use crate::standing::translation_stands;
use asm_validate::Checked;
use asm2wasm_numbers::ModuleNumbers;
use asm2wasm_sections::laws::numbers_are_few;
use asm2wasm_sections::{elements, exports, functions, globals, imports, tables, types};
use sem_words::List;
use std::alloc::{AllocError, Global};
use wasm_tree::{Element, FuncType, GlobalDef, Import, Limits, Module, WasmExport};

// The sections before the tables.
#[derive(Drop)]
struct Front<'a> {
    types: List<FuncType>,
    imports: List<Import<'a>>,
    functions: List<u32>,
}

// The sections from the tables to the code.
#[derive(Drop)]
struct Middle<'a> {
    tables: List<Limits>,
    globals: List<GlobalDef>,
    exports: List<WasmExport<'a>>,
    elements: List<Element>,
}

/// The module of WebAssembly for an accepted module of asm.js with a heap of so many bytes, as a tree.
///
/// It is valid, called as asked, and shows what the text shows, at a bounded pace. Its sessions never trap. A reader takes
/// it; where the text is short, it can be written, and where the text is small, translated back.
pub fn translate_module<'a>(
    alloc: Global,
    checked: &'a Checked,
    heap: u32,
) -> Result<Module<'a>, AllocError>
    requires length { is_heap_length heap ≡ true }
    ensures exact { IfOk result (λ w. module_of w ≡ translation (module_view checked.now) heap) }
    ensures allowed { IfOk result (λ w. IsAllowed (module_view checked.now) heap (module_of w)) }
    ensures bounded { IfOk result (λ w. IsBounded (module_view checked.now) heap (module_of w)) }
    ensures never_traps { IfOk result (λ w. NeverTraps (module_of w)) }
    ensures within { IfOk result (λ w. IsWithinReader (module_of w)) }
    ensures shaped { IfOk result (λ w. IsShaped (module_of w)) }
    ensures writable { IfOk result (λ w. IsOfShortText (module_view checked.now) → IsWritable (module_of w)) }
    ensures profile { IfOk result (λ w. IsSmall (module_view checked.now) → IsInProfile (module_of w)) }
    ensures functions { IfOk result (λ w. HasFunctions (module_view checked.now) heap (module_of w)) }
    ensures tables { IfOk result (λ w. HasTables (module_view checked.now) (module_of w)) }
{
    translation_stands();
    let _home = checked.module();
    let numbers = ModuleNumbers::new(alloc, checked)?;
    translated(alloc, &numbers, heap)
}

// .. with its numbers.
fn translated<'a>(
    alloc: Global,
    numbers: &ModuleNumbers<'a>,
    heap: u32,
) -> Result<Module<'a>, AllocError>
    requires length { is_heap_length heap ≡ true }
    ensures { IfOk result (λ w. module_of w ≡ translation (module_view numbers.now) heap) }
{
    numbers_are_few();
    asm2wasm_laws_writable::code();
    let _home = numbers.checked().module();
    made(alloc, numbers, heap)
}

fn made<'a>(alloc: Global, numbers: &ModuleNumbers<'a>, heap: u32) -> Result<Module<'a>, AllocError>
    requires length { is_heap_length heap ≡ true }
    requires types { FewTypes (module_view numbers.now) }
    requires functions { FewFunctions (module_view numbers.now) }
    requires entries { FewEntries (module_view numbers.now) }
    requires globals { FewGlobals (module_view numbers.now) }
    requires narrow { AreNarrow (module_view numbers.now) heap (module_view numbers.now).functions }
    ensures { IfOk result (λ w. module_of w ≡ translation (module_view numbers.now) heap) }
{
    let home = numbers.checked().module();
    let front = make_front(alloc, numbers, heap)?;
    let middle = make_middle(alloc, numbers)?;
    let bodies = bodies(alloc, home.functions.as_slice(), numbers, heap as usize)?;
    Ok(Module {
        types: front.types,
        imports: front.imports,
        functions: front.functions,
        tables: middle.tables,
        memories: List::new(alloc),
        globals: middle.globals,
        exports: middle.exports,
        start: None,
        elements: middle.elements,
        bodies,
        segments: List::new(alloc),
    })
}

fn make_front<'a>(
    alloc: Global,
    numbers: &ModuleNumbers<'a>,
    heap: u32,
) -> Result<Front<'a>, AllocError>
    requires length { is_heap_length heap ≡ true }
    requires types { FewTypes (module_view numbers.now) }
    ensures types { IfOk result (λ f. map type_of (list_items f.types) ≡ map type_for (signatures (module_view numbers.now))) }
    ensures imports { IfOk result (λ f. map import_of (list_items f.imports) ≡ imports_of (module_view numbers.now) heap) }
    ensures functions { IfOk result (λ f. list_items f.functions ≡ map (λ g. type_number (module_view numbers.now) (signature_of g)) (module_view numbers.now).functions) }
{
    let home = numbers.checked().module();
    let types = types(alloc, numbers.signatures())?;
    let imports = imports(alloc, numbers, heap)?;
    let functions = functions(alloc, home.functions.as_slice(), numbers)?;
    Ok(Front {
        types,
        imports,
        functions,
    })
}

fn make_middle<'a>(alloc: Global, numbers: &ModuleNumbers<'a>) -> Result<Middle<'a>, AllocError>
    requires functions { FewFunctions (module_view numbers.now) }
    requires entries { FewEntries (module_view numbers.now) }
    requires globals { FewGlobals (module_view numbers.now) }
    ensures tables { IfOk result (λ m. list_items m.tables ≡ table_for (module_view numbers.now) (module_view numbers.now).tables) }
    ensures globals { IfOk result (λ m. map global_of (list_items m.globals) ≡ map (global_for (module_view numbers.now)) (int_variables (module_view numbers.now).globals)) }
    ensures exports { IfOk result (λ m. map export_of (list_items m.exports) ≡ exports_given (module_view numbers.now)) }
    ensures elements { IfOk result (λ m. map element_of (list_items m.elements) ≡ elements_for (module_view numbers.now) (module_view numbers.now).tables) }
{
    let home = numbers.checked().module();
    let tables = tables(alloc, numbers)?;
    let globals = globals(alloc, home.globals.as_slice(), numbers)?;
    let exports = exports(alloc, numbers)?;
    let elements = elements(alloc, numbers)?;
    Ok(Middle {
        tables,
        globals,
        exports,
        elements,
    })
}
