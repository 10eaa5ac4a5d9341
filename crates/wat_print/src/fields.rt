//! The fields of a module.

ghost use Rattle.std.specs.Prelude.{◌≡◌, OnOk, map};
ghost use Rattle.std.specs.List.{flat_map};
ghost use Rattle.wasm_tree.specs.Views.{body_of, element_of, export_of, global_of, import_of, segment_of, type_of};
ghost use Rattle.wat_lang.specs.Printing.{described, exported, type_field, import_field, function_field, function_fields, table_field, memory_field, global_field, export_field, start_field, element_field, segment_field};
ghost use Rattle.wat_print.specs.Put.{written, put, local_pieces, numbered};

use crate::instructions::{put_code, put_constant, put_numbers};
use crate::output::Output;
use crate::parts::{
    put_function_type, put_global_type, put_memory, put_table, put_types_group, put_use,
};
use std::alloc::{AllocError, Global};
use wasm_lang::{ExportKind, ImportKind, Limits};
use wasm_tree::{Body, Element, FuncType, GlobalDef, Import, Segment, WasmExport};

#[tactic(auto, using(crate::proofs::Puts::puts))]
fn put_type_field(out: &mut Output, function: &FuncType) -> Result<(), AllocError>
    ensures { OnOk result (written out.new ≡ put (written out.old) (type_field (type_of function.now))) }
{
    out.open(b"type")?;
    put_function_type(out, function)?;
    out.close()?;
    out.line_end()
}

#[tactic(auto, using(crate::proofs::Puts::puts, crate::proofs::Lists::lists))]
pub fn put_type_fields(out: &mut Output, types: &[FuncType]) -> Result<(), AllocError>
    ensures { OnOk result (written out.new ≡ put (written out.old) (flat_map type_field (map type_of types.now))) }
{
    for function in types {
        put_type_field(out, function)?;
    }
    Ok(())
}

/// What is imported.
#[tactic(auto, using(crate::proofs::Puts::puts))]
fn put_described(out: &mut Output, kind: &ImportKind) -> Result<(), AllocError>
    ensures { OnOk result (written out.new ≡ put (written out.old) (described kind.now)) }
{
    match kind {
        ImportKind::Func(function_type) => {
            out.open(b"func")?;
            put_use(out, *function_type)?;
            out.close()
        }
        ImportKind::Table(limits) => put_table(out, limits),
        ImportKind::Memory(limits) => put_memory(out, limits),
        ImportKind::Global(kind) => {
            out.open(b"global")?;
            put_global_type(out, *kind)?;
            out.close()
        }
    }
}

#[tactic(auto, using(crate::proofs::Puts::puts))]
fn put_import_field(out: &mut Output, import: &Import<'_>) -> Result<(), AllocError>
    ensures { OnOk result (written out.new ≡ put (written out.old) (import_field (import_of import.now))) }
{
    out.open(b"import")?;
    out.string(import.module.as_bytes())?;
    out.string(import.field.as_bytes())?;
    put_described(out, &import.kind)?;
    out.close()?;
    out.line_end()
}

#[tactic(auto, using(crate::proofs::Puts::puts, crate::proofs::Lists::lists))]
pub fn put_import_fields(out: &mut Output, imports: &[Import<'_>]) -> Result<(), AllocError>
    ensures { OnOk result (written out.new ≡ put (written out.old) (flat_map import_field (map import_of imports.now))) }
{
    for import in imports {
        put_import_field(out, import)?;
    }
    Ok(())
}

/// The head of a function: its type and its locals.
#[tactic(auto, using(crate::proofs::Puts::puts))]
fn put_locals(alloc: Global, out: &mut Output, body: &Body<'_>) -> Result<(), AllocError>
    ensures { OnOk result (written out.new ≡ put (written out.old) (local_pieces (body_of body.now))) }
{
    let locals = body.local_types(alloc, &[])?;
    put_types_group(out, b"local", locals.as_slice())
}

#[tactic(auto, using(crate::proofs::Puts::puts))]
fn put_function_field(
    alloc: Global,
    out: &mut Output,
    function_type: u32,
    body: &Body<'_>,
) -> Result<(), AllocError>
    ensures { OnOk result (written out.new ≡ put (written out.old) (function_field function_type (body_of body.now))) }
{
    out.open(b"func")?;
    put_use(out, function_type)?;
    put_locals(alloc, out, body)?;
    out.line_end()?;
    put_code(alloc, out, &body.code)?;
    out.close()?;
    out.line_end()
}

#[tactic(auto, using(crate::proofs::Puts::puts, crate::proofs::Lists::functions))]
pub fn put_function_fields(
    alloc: Global,
    out: &mut Output,
    functions: &[u32],
    bodies: &[Body<'_>],
) -> Result<(), AllocError>
    ensures { OnOk result (written out.new ≡ put (written out.old) (function_fields functions.now (map body_of bodies.now))) }
{
    for index in 0..functions.len().min(bodies.len()) {
        put_function_field(alloc, out, functions[index], &bodies[index])?;
    }
    Ok(())
}

#[tactic(auto, using(crate::proofs::Puts::puts, crate::proofs::Lists::lists))]
pub fn put_table_fields(out: &mut Output, tables: &[Limits]) -> Result<(), AllocError>
    ensures { OnOk result (written out.new ≡ put (written out.old) (flat_map table_field tables.now)) }
{
    for limits in tables {
        put_table(out, limits)?;
        out.line_end()?;
    }
    Ok(())
}

#[tactic(auto, using(crate::proofs::Puts::puts, crate::proofs::Lists::lists))]
pub fn put_memory_fields(out: &mut Output, memories: &[Limits]) -> Result<(), AllocError>
    ensures { OnOk result (written out.new ≡ put (written out.old) (flat_map memory_field memories.now)) }
{
    for limits in memories {
        put_memory(out, limits)?;
        out.line_end()?;
    }
    Ok(())
}

#[tactic(auto, using(crate::proofs::Puts::puts))]
fn put_global_field(out: &mut Output, global: &GlobalDef) -> Result<(), AllocError>
    ensures { OnOk result (written out.new ≡ put (written out.old) (global_field (global_of global.now))) }
{
    out.open(b"global")?;
    put_global_type(out, global.kind)?;
    put_constant(out, global.init.as_slice())?;
    out.close()?;
    out.line_end()
}

#[tactic(auto, using(crate::proofs::Puts::puts, crate::proofs::Lists::lists))]
pub fn put_global_fields(out: &mut Output, globals: &[GlobalDef]) -> Result<(), AllocError>
    ensures { OnOk result (written out.new ≡ put (written out.old) (flat_map global_field (map global_of globals.now))) }
{
    for global in globals {
        put_global_field(out, global)?;
    }
    Ok(())
}

/// A number behind a keyword.
#[tactic(auto, using(crate::proofs::Puts::puts))]
fn put_numbered(out: &mut Output, keyword: &[u8], number: u32) -> Result<(), AllocError>
    ensures { OnOk result (written out.new ≡ put (written out.old) (numbered keyword.now number)) }
{
    out.open(keyword)?;
    out.number(number)?;
    out.close()
}

/// What is exported.
fn put_exported(out: &mut Output, kind: &ExportKind) -> Result<(), AllocError>
    ensures { OnOk result (written out.new ≡ put (written out.old) (exported kind.now)) }
{
    match kind {
        ExportKind::Func(function) => put_numbered(out, b"func", *function),
        ExportKind::Table(table) => put_numbered(out, b"table", *table),
        ExportKind::Memory(memory) => put_numbered(out, b"memory", *memory),
        ExportKind::Global(global) => put_numbered(out, b"global", *global),
    }
}

#[tactic(auto, using(crate::proofs::Puts::puts))]
fn put_export_field(out: &mut Output, export: &WasmExport<'_>) -> Result<(), AllocError>
    ensures { OnOk result (written out.new ≡ put (written out.old) (export_field (export_of export.now))) }
{
    out.open(b"export")?;
    out.string(export.name.as_bytes())?;
    put_exported(out, &export.kind)?;
    out.close()?;
    out.line_end()
}

#[tactic(auto, using(crate::proofs::Puts::puts, crate::proofs::Lists::lists))]
pub fn put_export_fields(out: &mut Output, exports: &[WasmExport<'_>]) -> Result<(), AllocError>
    ensures { OnOk result (written out.new ≡ put (written out.old) (flat_map export_field (map export_of exports.now))) }
{
    for export in exports {
        put_export_field(out, export)?;
    }
    Ok(())
}

#[tactic(auto, using(crate::proofs::Puts::puts))]
pub fn put_start_field(out: &mut Output, start: Option<u32>) -> Result<(), AllocError>
    ensures { OnOk result (written out.new ≡ put (written out.old) (start_field start)) }
{
    match start {
        None => Ok(()),
        Some(function) => {
            put_numbered(out, b"start", function)?;
            out.line_end()
        }
    }
}

#[tactic(auto, using(crate::proofs::Puts::puts))]
fn put_element_field(out: &mut Output, element: &Element) -> Result<(), AllocError>
    ensures { OnOk result (written out.new ≡ put (written out.old) (element_field (element_of element.now))) }
{
    out.open(b"elem")?;
    put_constant(out, element.offset.as_slice())?;
    out.word(b"func")?;
    put_numbers(out, element.functions.as_slice())?;
    out.close()?;
    out.line_end()
}

#[tactic(auto, using(crate::proofs::Puts::puts, crate::proofs::Lists::lists))]
pub fn put_element_fields(out: &mut Output, elements: &[Element]) -> Result<(), AllocError>
    ensures { OnOk result (written out.new ≡ put (written out.old) (flat_map element_field (map element_of elements.now))) }
{
    for element in elements {
        put_element_field(out, element)?;
    }
    Ok(())
}

#[tactic(auto, using(crate::proofs::Puts::puts))]
fn put_segment_field(out: &mut Output, segment: &Segment<'_>) -> Result<(), AllocError>
    ensures { OnOk result (written out.new ≡ put (written out.old) (segment_field (segment_of segment.now))) }
{
    out.open(b"data")?;
    put_constant(out, segment.offset.as_slice())?;
    out.string(segment.bytes.as_bytes())?;
    out.close()?;
    out.line_end()
}

#[tactic(auto, using(crate::proofs::Puts::puts, crate::proofs::Lists::lists))]
pub fn put_segment_fields(out: &mut Output, segments: &[Segment<'_>]) -> Result<(), AllocError>
    ensures { OnOk result (written out.new ≡ put (written out.old) (flat_map segment_field (map segment_of segments.now))) }
{
    for segment in segments {
        put_segment_field(out, segment)?;
    }
    Ok(())
}
