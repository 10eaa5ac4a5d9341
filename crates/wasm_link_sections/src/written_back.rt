// The sections of exports, elements and data in the binary format, item by item.

ghost use Rattle.std.specs.Prelude.{◌≡◌, ◌≤◌, ◌++◌, ℕ, length, map, OnOk};
ghost use Rattle.wasm_tree.specs.Views.{element_of, export_of, instr_of, segment_of};
ghost use Rattle.wasm_binary_write.specs.Spelling as spelling;
ghost use Rattle.wasm_binary_write.specs.Spelling.{instruction, items, section, unsigned, vector};
ghost use Rattle.wasm_link_code.specs.Linked as linked;
ghost use Rattle.wasm_link_move.specs.Moved.{side_of};
ghost use Rattle.wasm_link_sections.specs.Made as made;

use crate::values::{function_in, sum_of};
use std::alloc::{AllocError, Global};
use wasm_binary_write::{Spell, push_instrs, push_sized, push_unsigned, put_size};
use wasm_lang::ExportKind;
use wasm_link_bind::{Numbers, function_of};
use wasm_link_move::Side;
use wasm_tree::{Bytes, Element, Instr, Segment, WasmExport};

/// Appends the section of exports.
pub fn put_exports(
    alloc: Global,
    out: &mut Vec<u8>,
    numbers: &Numbers<'_>,
) -> Result<(), AllocError>
    ensures { OnOk result (out.new.items ≡ out.old.items ++ section 7 spelling.exported (made.module_made numbers.now).exports) }
{
    let count = exports_count(numbers);
    if count == 0 {
        return Ok(());
    }
    out.push(7)?;
    let start = out.len();
    push_unsigned(out, count)?;
    push_all_exports(alloc, out, numbers)?;
    put_size(out, start)
}

fn exports_count(numbers: &Numbers<'_>) -> usize
    ensures { result ≡ length (made.module_made numbers.now).exports }
{
    let first = numbers.first().valid().module();
    let second = numbers.second().valid().module();
    functions_among(first.exports.as_slice()) + functions_among(second.exports.as_slice())
}

// Those of both modules.
fn push_all_exports(
    alloc: Global,
    out: &mut Vec<u8>,
    numbers: &Numbers<'_>,
) -> Result<(), AllocError>
    ensures { OnOk result (out.new.items ≡ out.old.items ++ items spelling.exported (made.module_made numbers.now).exports) }
{
    let first = numbers.first().valid().module();
    let second = numbers.second().valid().module();
    push_exports(alloc, out, numbers, Side::First, first.exports.as_slice())?;
    push_exports(alloc, out, numbers, Side::Second, second.exports.as_slice())
}

// How many exports are functions.
fn functions_among(exports: &[WasmExport<'_>]) -> usize
    ensures count { (function : ℕ → ℕ) → result ≡ length (linked.moved_exports function (map export_of exports.now)) }
    ensures few { result ≤ length exports.now }
{
    let mut count = 0;
    for export in exports {
        if let Some(_) = function_of(export.kind) {
            count += 1;
        }
    }
    count
}

// The functions that one of the modules exports.
fn push_exports(
    alloc: Global,
    out: &mut Vec<u8>,
    numbers: &Numbers<'_>,
    side: Side,
    own: &[WasmExport<'_>],
) -> Result<(), AllocError>
    ensures { OnOk result (out.new.items ≡ out.old.items ++ items spelling.exported (linked.moved_exports (made.function_in numbers.now (side_of side)) (map export_of own.now))) }
{
    for export in own {
        if let Some(function) = function_of(export.kind) {
            let moved = WasmExport {
                name: Bytes::Lent(export.name.as_bytes()),
                kind: ExportKind::Func(function_in(numbers, side, function)),
            };
            moved.push_to(alloc, out)?;
        }
    }
    Ok(())
}

/// Appends the section of elements.
pub fn put_elements(
    alloc: Global,
    out: &mut Vec<u8>,
    numbers: &Numbers<'_>,
) -> Result<(), AllocError>
    ensures { OnOk result (out.new.items ≡ out.old.items ++ section 9 spelling.element (made.module_made numbers.now).elements) }
{
    let count = elements_count(numbers);
    if count == 0 {
        return Ok(());
    }
    out.push(9)?;
    let start = out.len();
    push_unsigned(out, count)?;
    push_all_elements(alloc, out, numbers)?;
    put_size(out, start)
}

fn elements_count(numbers: &Numbers<'_>) -> usize
    ensures { result ≡ length (made.module_made numbers.now).elements }
{
    let first = numbers.first().valid().module();
    let second = numbers.second().valid().module();
    first.elements.len() + second.elements.len()
}

// Those of both modules.
fn push_all_elements(
    alloc: Global,
    out: &mut Vec<u8>,
    numbers: &Numbers<'_>,
) -> Result<(), AllocError>
    ensures { OnOk result (out.new.items ≡ out.old.items ++ items spelling.element (made.module_made numbers.now).elements) }
{
    let first = numbers.first().valid().module();
    let second = numbers.second().valid().module();
    let past = numbers.first_entries();
    push_elements(
        alloc,
        out,
        numbers,
        Side::First,
        0,
        first.elements.as_slice(),
    )?;
    push_elements(
        alloc,
        out,
        numbers,
        Side::Second,
        past,
        second.elements.as_slice(),
    )
}

// The elements of one of the modules, whose table begins so many entries later.
fn push_elements(
    alloc: Global,
    out: &mut Vec<u8>,
    numbers: &Numbers<'_>,
    side: Side,
    entries: u32,
    own: &[Element],
) -> Result<(), AllocError>
    ensures { OnOk result (out.new.items ≡ out.old.items ++ items spelling.element (map (made.element_made (made.function_in numbers.now (side_of side)) entries) (map element_of own.now))) }
{
    for element in own {
        push_unsigned(out, element.table as usize)?;
        push_offset_by(alloc, out, entries, element.offset.as_slice())?;
        push_functions(out, numbers, side, element.functions.as_slice())?;
    }
    Ok(())
}

// An offset, by so many more.
fn push_offset_by(
    alloc: Global,
    out: &mut Vec<u8>,
    more: u32,
    offset: &[Instr],
) -> Result<(), AllocError>
    ensures { OnOk result (out.new.items ≡ out.old.items ++ items instruction (made.offset_made more (map instr_of offset.now))) }
{
    match offset {
        [Instr::Const32(word), Instr::End] => push_instrs(
            alloc,
            out,
            &[Instr::Const32(sum_of(*word as usize, more)), Instr::End],
        ),
        _ => Ok(()),
    }
}

// The functions of an element.
fn push_functions(
    out: &mut Vec<u8>,
    numbers: &Numbers<'_>,
    side: Side,
    functions: &[u32],
) -> Result<(), AllocError>
    ensures { OnOk result (out.new.items ≡ out.old.items ++ vector unsigned (map (made.function_in numbers.now (side_of side)) functions.now)) }
{
    push_unsigned(out, functions.len())?;
    for function in functions {
        push_unsigned(out, function_in(numbers, side, *function) as usize)?;
    }
    Ok(())
}

/// Appends the section of data.
pub fn put_segments(
    alloc: Global,
    out: &mut Vec<u8>,
    numbers: &Numbers<'_>,
) -> Result<(), AllocError>
    ensures { OnOk result (out.new.items ≡ out.old.items ++ section 11 spelling.segment (made.module_made numbers.now).segments) }
{
    let count = segments_count(numbers);
    if count == 0 {
        return Ok(());
    }
    out.push(11)?;
    let start = out.len();
    push_unsigned(out, count)?;
    push_all_segments(alloc, out, numbers)?;
    put_size(out, start)
}

fn segments_count(numbers: &Numbers<'_>) -> usize
    ensures { result ≡ length (made.module_made numbers.now).segments }
{
    let first = numbers.first().valid().module();
    let second = numbers.second().valid().module();
    first.segments.len() + second.segments.len()
}

// Those of both modules.
fn push_all_segments(
    alloc: Global,
    out: &mut Vec<u8>,
    numbers: &Numbers<'_>,
) -> Result<(), AllocError>
    ensures { OnOk result (out.new.items ≡ out.old.items ++ items spelling.segment (made.module_made numbers.now).segments) }
{
    let first = numbers.first().valid().module();
    let second = numbers.second().valid().module();
    push_segments(alloc, out, first.segments.as_slice())?;
    push_segments(alloc, out, second.segments.as_slice())
}

// Segments as they are.
fn push_segments(alloc: Global, out: &mut Vec<u8>, own: &[Segment<'_>]) -> Result<(), AllocError>
    ensures { OnOk result (out.new.items ≡ out.old.items ++ items spelling.segment (map made.segment_made (map segment_of own.now))) }
{
    for segment in own {
        push_unsigned(out, segment.memory as usize)?;
        push_offset(alloc, out, segment.offset.as_slice())?;
        push_sized(out, segment.bytes.as_bytes())?;
    }
    Ok(())
}

// An offset as it is.
fn push_offset(alloc: Global, out: &mut Vec<u8>, offset: &[Instr]) -> Result<(), AllocError>
    ensures { OnOk result (out.new.items ≡ out.old.items ++ items instruction (made.offset_kept (map instr_of offset.now))) }
{
    match offset {
        [Instr::Const32(word), Instr::End] => {
            push_instrs(alloc, out, &[Instr::Const32(*word), Instr::End])
        }
        _ => Ok(()),
    }
}
