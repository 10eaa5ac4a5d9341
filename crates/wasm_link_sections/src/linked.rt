// The whole linked module.

ghost use Rattle.std.specs.Prelude.{◌≡◌, ◌++◌, false, map, true, IfOk};
ghost use Rattle.sem_words.specs.Lists.{list_items};
ghost use Rattle.wasm_tree.specs.Views.{body_of, element_of, export_of, global_of, import_of, module_of, segment_of};
ghost use Rattle.wasm_link_lang.specs.Refusal.{least_maximum};
ghost use Rattle.wasm_link_lang.specs.Session as session;
ghost use Rattle.wasm_link_code.specs.Linked as linked;
ghost use Rattle.wasm_link_sections.specs.Made as made;

use crate::back::{push_elements, push_exports, push_globals, push_segments};
use crate::bodies::push_bodies;
use crate::front::{push_imports, push_memory, types};
use crate::start::{functions, push_start, start};
use crate::values::sum_of;
use sem_words::List;
use std::alloc::{AllocError, Global};
use wasm_lang::Limits;
use wasm_link_bind::Numbers;
use wasm_link_move::Side;
use wasm_link_rows::{least_maximum, pages};
use wasm_tree::{Body, Element, GlobalDef, Import, Module, Segment, WasmExport};

/// The module that a pair is linked to, as a tree.
pub fn made<'a>(alloc: Global, numbers: &Numbers<'a>) -> Result<Module<'a>, AllocError>
    ensures { IfOk result (λ m. module_of m ≡ made.module_made numbers.now) }
{
    let bodies = bodies(alloc, numbers)?;
    let first = numbers.first().valid().module();
    let second = numbers.second().valid().module();
    Ok(Module {
        types: types(alloc, first.types.as_slice(), second.types.as_slice())?,
        imports: imports(alloc, numbers)?,
        functions: functions(alloc, numbers)?,
        tables: tables(alloc, numbers)?,
        memories: List::new(alloc),
        globals: globals(alloc, numbers)?,
        exports: exports(alloc, numbers)?,
        start: start(numbers),
        elements: elements(alloc, numbers)?,
        bodies,
        segments: segments(alloc, numbers)?,
    })
}

/// .. without what stands behind its globals.
pub fn front<'a>(alloc: Global, numbers: &Numbers<'a>) -> Result<Module<'a>, AllocError>
    ensures { IfOk result (λ m. module_of m ≡ made.front (made.module_made numbers.now)) }
{
    let first = numbers.first().valid().module();
    let second = numbers.second().valid().module();
    Ok(Module {
        types: types(alloc, first.types.as_slice(), second.types.as_slice())?,
        imports: imports(alloc, numbers)?,
        functions: functions(alloc, numbers)?,
        tables: tables(alloc, numbers)?,
        memories: List::new(alloc),
        globals: globals(alloc, numbers)?,
        exports: List::new(alloc),
        start: None,
        elements: List::new(alloc),
        bodies: List::new(alloc),
        segments: List::new(alloc),
    })
}

fn imports<'a>(alloc: Global, numbers: &Numbers<'a>) -> Result<List<Import<'a>>, AllocError>
    ensures { IfOk result (λ list. map import_of (list_items list) ≡ (made.module_made numbers.now).imports) }
{
    let first = numbers.first().valid().module();
    let second = numbers.second().valid().module();
    let mut imports = Vec::new(alloc);
    push_imports(&mut imports, numbers.first(), numbers.second(), 0)?;
    push_imports(
        &mut imports,
        numbers.second(),
        numbers.first(),
        first.types.len(),
    )?;
    push_memory(
        &mut imports,
        pages(first, second),
        least_maximum(first, second),
    )?;
    Ok(List::from_vec(imports))
}

fn tables(alloc: Global, numbers: &Numbers<'_>) -> Result<List<Limits>, AllocError>
    ensures { IfOk result (λ list. list_items list ≡ (made.module_made numbers.now).tables) }
{
    let mut tables = Vec::new(alloc);
    let first = numbers.first().valid().module();
    let second = numbers.second().valid().module();
    if !first.tables.is_empty() || !second.tables.is_empty() {
        tables.push(Limits {
            min: sum_of(numbers.first_entries() as usize, numbers.second_entries()),
            max: None,
        })?;
    }
    Ok(List::from_vec(tables))
}

fn globals(alloc: Global, numbers: &Numbers<'_>) -> Result<List<GlobalDef>, AllocError>
    ensures { IfOk result (λ list. map global_of (list_items list) ≡ (made.module_made numbers.now).globals) }
{
    let mut globals = Vec::new(alloc);
    let first = numbers.first().valid().module();
    let second = numbers.second().valid().module();
    push_globals(
        alloc,
        &mut globals,
        numbers,
        Side::First,
        first.globals.as_slice(),
    )?;
    push_globals(
        alloc,
        &mut globals,
        numbers,
        Side::Second,
        second.globals.as_slice(),
    )?;
    Ok(List::from_vec(globals))
}

fn exports<'a>(alloc: Global, numbers: &Numbers<'a>) -> Result<List<WasmExport<'a>>, AllocError>
    ensures { IfOk result (λ list. map export_of (list_items list) ≡ (made.module_made numbers.now).exports) }
{
    let mut exports = Vec::new(alloc);
    let first = numbers.first().valid().module();
    let second = numbers.second().valid().module();
    push_exports(&mut exports, numbers, Side::First, first.exports.as_slice())?;
    push_exports(
        &mut exports,
        numbers,
        Side::Second,
        second.exports.as_slice(),
    )?;
    Ok(List::from_vec(exports))
}

fn elements(alloc: Global, numbers: &Numbers<'_>) -> Result<List<Element>, AllocError>
    ensures { IfOk result (λ list. map element_of (list_items list) ≡ (made.module_made numbers.now).elements) }
{
    let mut elements = Vec::new(alloc);
    let first = numbers.first().valid().module();
    let second = numbers.second().valid().module();
    let past = numbers.first_entries();
    push_elements(
        alloc,
        &mut elements,
        numbers,
        Side::First,
        0,
        first.elements.as_slice(),
    )?;
    push_elements(
        alloc,
        &mut elements,
        numbers,
        Side::Second,
        past,
        second.elements.as_slice(),
    )?;
    Ok(List::from_vec(elements))
}

fn bodies<'a>(alloc: Global, numbers: &Numbers<'a>) -> Result<List<Body<'a>>, AllocError>
    ensures { IfOk result (λ list. map body_of (list_items list) ≡ (made.module_made numbers.now).bodies) }
{
    let mut bodies = Vec::new(alloc);
    let first = numbers.first().valid().module();
    let second = numbers.second().valid().module();
    push_bodies(
        alloc,
        &mut bodies,
        numbers,
        Side::First,
        numbers.second_entries(),
        first,
    )?;
    push_bodies(
        alloc,
        &mut bodies,
        numbers,
        Side::Second,
        numbers.first_entries(),
        second,
    )?;
    push_start(alloc, &mut bodies, numbers)?;
    Ok(List::from_vec(bodies))
}

fn segments<'a>(alloc: Global, numbers: &Numbers<'a>) -> Result<List<Segment<'a>>, AllocError>
    ensures { IfOk result (λ list. map segment_of (list_items list) ≡ (made.module_made numbers.now).segments) }
{
    let mut segments = Vec::new(alloc);
    let first = numbers.first().valid().module();
    let second = numbers.second().valid().module();
    push_segments(alloc, &mut segments, first.segments.as_slice())?;
    push_segments(alloc, &mut segments, second.segments.as_slice())?;
    Ok(List::from_vec(segments))
}
