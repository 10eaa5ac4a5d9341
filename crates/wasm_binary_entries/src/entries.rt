//! Entries of sections, and vectors of them.
ghost use Rattle.std.specs.Prelude.{◌≡◌, IfOk};
ghost use Rattle.sem_words.specs.Lists.{list_items};
ghost use Rattle.wasm_lang.specs.Reading as reading;
ghost use Rattle.wasm_lang.specs.ReadingModule as modules;
ghost use Rattle.wasm_tree.specs.Inputs.{input_of, IsField, IsRead, Continues};
ghost use Rattle.wasm_tree.specs.Views.{type_of, global_of, export_of, element_of, segment_of};
ghost use Rattle.wasm_binary_entries.specs.Kinds.{exported_by};
ghost use Rattle.wasm_binary_entries.specs.Lent.{source_of, IsLentExport, IsLentSegment, EachAt, Located};
ghost use Rattle.wasm_binary_entries.specs.Places.{export_place, segment_place};
ghost use Rattle.wasm_binary_entries.specs.Views.{types_of, globals_of, exports_of, elements_of, segments_of};

use crate::code::instrs;
use crate::fields::{bytes, count, global_type, memory, name, number, table};
use crate::room::list_for;
use sem_words::List;
use std::alloc::Global;
use wasm_tree::{
    Element, ExportKind, Fault, FuncType, GlobalDef, Input, Limits, ReadError, Row, Segment,
    ValType, WasmExport, read_numbers,
};

// The most parameters of a type that this reader takes.
const MOST_PARAMS: usize = 2_000;

/// So many value types.
pub fn val_types<'a>(
    alloc: Global,
    input: Input<'a>,
    count: u32,
) -> Result<(List<ValType>, Input<'a>), ReadError>
    ensures { IsRead list_items result (reading.items_field reading.val_type_field count (input_of input.entry)) }
{
    let mut list = List::new(alloc);
    let mut rest = input;
    for _i in 0..count {
        let (item, after) = rest.val_type()?;
        if list.push(item).is_err() {
            return Err(ReadError::Memory);
        }
        rest = after;
    }
    Ok((list, rest))
}

/// The type of a function.
pub fn function_type<'a>(
    alloc: Global,
    input: Input<'a>,
) -> Result<(FuncType, Input<'a>), ReadError>
    ensures { IsRead type_of result (modules.function_type_field (input_of input.entry)) }
{
    let rest = input.exactly(0x60)?;
    let (n, rest) = count(rest, 0, MOST_PARAMS)?;
    let (params, rest) = val_types(alloc, rest, n)?;
    let (n, rest) = number(rest)?;
    let (results, rest) = val_types(alloc, rest, n)?;
    Ok((FuncType { params, results }, rest))
}

/// So many types of functions.
pub fn function_types<'a>(
    alloc: Global,
    input: Input<'a>,
    count: u32,
) -> Result<(List<FuncType>, Input<'a>), ReadError>
    ensures { IsRead types_of result (reading.items_field modules.function_type_field count (input_of input.entry)) }
{
    let mut list = List::new(alloc);
    let mut rest = input;
    for _i in 0..count {
        let (item, after) = function_type(alloc, rest)?;
        if list.push(item).is_err() {
            return Err(ReadError::Memory);
        }
        rest = after;
    }
    Ok((list, rest))
}

/// So many numbers.
pub fn numbers<'a>(
    alloc: Global,
    input: Input<'a>,
    count: u32,
) -> Result<(List<u32>, Input<'a>), ReadError>
    ensures { IsRead list_items result (reading.items_field reading.u32 count (input_of input.entry)) }
{
    let mut list = list_for(alloc, input.bytes.len().min(count as usize));
    let mut rest = input;
    for _i in 0..count {
        let (item, after) = number(rest)?;
        if list.push(item).is_err() {
            return Err(ReadError::Memory);
        }
        rest = after;
    }
    Ok((list, rest))
}

/// So many tables.
pub fn tables<'a>(
    alloc: Global,
    input: Input<'a>,
    count: u32,
) -> Result<(List<Limits>, Input<'a>), ReadError>
    ensures { IsRead list_items result (reading.items_field modules.table_field count (input_of input.entry)) }
{
    let mut list = List::new(alloc);
    let mut rest = input;
    for _i in 0..count {
        let (item, after) = table(rest)?;
        if list.push(item).is_err() {
            return Err(ReadError::Memory);
        }
        rest = after;
    }
    Ok((list, rest))
}

/// So many memories.
pub fn memories<'a>(
    alloc: Global,
    input: Input<'a>,
    count: u32,
) -> Result<(List<Limits>, Input<'a>), ReadError>
    ensures { IsRead list_items result (reading.items_field modules.memory_field count (input_of input.entry)) }
{
    let mut list = List::new(alloc);
    let mut rest = input;
    for _i in 0..count {
        let (item, after) = memory(rest)?;
        if list.push(item).is_err() {
            return Err(ReadError::Memory);
        }
        rest = after;
    }
    Ok((list, rest))
}

/// A global.
pub fn global<'a>(alloc: Global, input: Input<'a>) -> Result<(GlobalDef, Input<'a>), ReadError>
    ensures { IsRead global_of result (modules.global_field (input_of input.entry)) }
{
    let (kind, rest) = global_type(input)?;
    let (init, rest) = instrs(alloc, rest)?;
    Ok((GlobalDef { kind, init }, rest))
}

/// So many globals.
pub fn globals<'a>(
    alloc: Global,
    input: Input<'a>,
    count: u32,
) -> Result<(List<GlobalDef>, Input<'a>), ReadError>
    ensures { IsRead globals_of result (reading.items_field modules.global_field count (input_of input.entry)) }
{
    let mut list = List::new(alloc);
    let mut rest = input;
    for _i in 0..count {
        let (item, after) = global(alloc, rest)?;
        if list.push(item).is_err() {
            return Err(ReadError::Memory);
        }
        rest = after;
    }
    Ok((list, rest))
}

// An export by its byte, which is at most 3.
fn exported(byte: u8, number: u32) -> ExportKind
    ensures { result ≡ exported_by byte number }
{
    match byte {
        0x00 => ExportKind::Func(number),
        0x01 => ExportKind::Table(number),
        0x02 => ExportKind::Memory(number),
        _ => ExportKind::Global(number),
    }
}

// What is exported.
fn export_kind<'a>(input: Input<'a>) -> Result<(ExportKind, Input<'a>), Fault>
    ensures value { IsField (λ k. k) result (modules.export_kind_field (input_of input.entry)) }
    ensures follows { IfOk result (λ x. Continues x.1 input.entry) }
{
    let (byte, rest) = input.byte(Row::SectionSize)?;
    if byte > 0x03 {
        return Err(Fault {
            row: Row::UnknownByte,
            at: input.at,
        });
    }
    let (n, rest) = number(rest)?;
    Ok((exported(byte, n), rest))
}

/// An export.
pub fn export<'a>(input: Input<'a>) -> Result<(WasmExport<'a>, Input<'a>), Fault>
    ensures value { IsField export_of result (modules.export_field (input_of input.entry)) }
    ensures follows { IfOk result (λ x. Continues x.1 input.entry) }
    ensures lent { IfOk result (λ x. Located (export_place (input_of input.entry)) (input_of x.1) (λ place. IsLentExport (source_of input.entry) place x.0)) }
{
    let (name, rest) = name(input)?;
    let (kind, rest) = export_kind(rest)?;
    Ok((WasmExport { name, kind }, rest))
}

/// So many exports.
pub fn exports<'a>(
    alloc: Global,
    input: Input<'a>,
    count: u32,
) -> Result<(List<WasmExport<'a>>, Input<'a>), ReadError>
    ensures value { IsRead exports_of result (reading.items_field modules.export_field count (input_of input.entry)) }
    ensures follows { IfOk result (λ x. Continues x.1 input.entry) }
    ensures lent { IfOk result (λ x. Located (reading.items_field export_place count (input_of input.entry)) (input_of x.1) (λ places. EachAt (IsLentExport (source_of input.entry)) places (list_items x.0))) }
{
    let mut list = List::new(alloc);
    let mut rest = input;
    for _i in 0..count {
        let (item, after) = export(rest)?;
        if list.push(item).is_err() {
            return Err(ReadError::Memory);
        }
        rest = after;
    }
    Ok((list, rest))
}

/// An element segment.
pub fn element<'a>(alloc: Global, input: Input<'a>) -> Result<(Element, Input<'a>), ReadError>
    ensures { IsRead element_of result (modules.element_field (input_of input.entry)) }
{
    let (table, rest) = number(input)?;
    let (offset, rest) = instrs(alloc, rest)?;
    let (functions, rest) = read_numbers(alloc, rest)?;
    Ok((
        Element {
            table,
            offset,
            functions,
        },
        rest,
    ))
}

/// So many element segments.
pub fn elements<'a>(
    alloc: Global,
    input: Input<'a>,
    count: u32,
) -> Result<(List<Element>, Input<'a>), ReadError>
    ensures { IsRead elements_of result (reading.items_field modules.element_field count (input_of input.entry)) }
{
    let mut list = List::new(alloc);
    let mut rest = input;
    for _i in 0..count {
        let (item, after) = element(alloc, rest)?;
        if list.push(item).is_err() {
            return Err(ReadError::Memory);
        }
        rest = after;
    }
    Ok((list, rest))
}

/// A data segment.
pub fn segment<'a>(alloc: Global, input: Input<'a>) -> Result<(Segment<'a>, Input<'a>), ReadError>
    ensures value { IsRead segment_of result (modules.segment_field (input_of input.entry)) }
    ensures follows { IfOk result (λ x. Continues x.1 input.entry) }
    ensures lent { IfOk result (λ x. Located (segment_place (input_of input.entry)) (input_of x.1) (λ place. IsLentSegment (source_of input.entry) place x.0)) }
{
    let (memory, rest) = number(input)?;
    let (offset, rest) = instrs(alloc, rest)?;
    let (bytes, rest) = bytes(rest)?;
    Ok((
        Segment {
            memory,
            offset,
            bytes,
        },
        rest,
    ))
}

/// So many data segments.
pub fn segments<'a>(
    alloc: Global,
    input: Input<'a>,
    count: u32,
) -> Result<(List<Segment<'a>>, Input<'a>), ReadError>
    ensures value { IsRead segments_of result (reading.items_field modules.segment_field count (input_of input.entry)) }
    ensures follows { IfOk result (λ x. Continues x.1 input.entry) }
    ensures lent { IfOk result (λ x. Located (reading.items_field segment_place count (input_of input.entry)) (input_of x.1) (λ places. EachAt (IsLentSegment (source_of input.entry)) places (list_items x.0))) }
{
    let mut list = List::new(alloc);
    let mut rest = input;
    for _i in 0..count {
        let (item, after) = segment(alloc, rest)?;
        if list.push(item).is_err() {
            return Err(ReadError::Memory);
        }
        rest = after;
    }
    Ok((list, rest))
}
