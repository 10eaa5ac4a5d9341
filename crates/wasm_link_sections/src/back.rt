// The sections of globals, exports, elements and data.

ghost use Rattle.std.specs.Prelude.{◌≡◌, ◌++◌, map, IfOk, OnOk};
ghost use Rattle.sem_words.specs.Lists.{list_items};
ghost use Rattle.wasm_tree.specs.Views.{element_of, export_of, global_of, segment_of};
ghost use Rattle.wasm_link_code.specs.Linked as linked;
ghost use Rattle.wasm_link_move.specs.Moved.{side_of};
ghost use Rattle.wasm_link_sections.specs.Made as made;

use crate::values::{function_in, offset_by, offset_kept, value_in};
use sem_words::List;
use std::alloc::{AllocError, Global};
use wasm_lang::ExportKind;
use wasm_link_bind::{Numbers, function_of};
use wasm_link_move::Side;
use wasm_tree::{Bytes, Element, GlobalDef, Segment, WasmExport};

/// Appends the globals of one of the modules.
pub fn push_globals(
    alloc: Global,
    globals: &mut Vec<GlobalDef>,
    numbers: &Numbers<'_>,
    side: Side,
    own: &[GlobalDef],
) -> Result<(), AllocError>
    ensures { OnOk result (map global_of globals.new.items ≡ map global_of globals.old.items ++ map (made.global_made (made.global_in numbers.now (side_of side))) (map global_of own.now)) }
{
    for global in own {
        globals.push(GlobalDef {
            kind: global.kind,
            init: value_in(alloc, numbers, side, global.init.as_slice())?,
        })?;
    }
    Ok(())
}

/// Appends the functions that one of the modules exports.
pub fn push_exports<'m>(
    exports: &mut Vec<WasmExport<'m>>,
    numbers: &Numbers<'_>,
    side: Side,
    own: &'m [WasmExport<'_>],
) -> Result<(), AllocError>
    ensures { OnOk result (map export_of exports.new.items ≡ map export_of exports.old.items ++ linked.moved_exports (made.function_in numbers.now (side_of side)) (map export_of own.now)) }
{
    for export in own {
        if let Some(function) = function_of(export.kind) {
            exports.push(WasmExport {
                name: Bytes::Lent(export.name.as_bytes()),
                kind: ExportKind::Func(function_in(numbers, side, function)),
            })?;
        }
    }
    Ok(())
}

/// Appends the elements of one of the modules, whose table begins so many entries later.
pub fn push_elements(
    alloc: Global,
    elements: &mut Vec<Element>,
    numbers: &Numbers<'_>,
    side: Side,
    entries: u32,
    own: &[Element],
) -> Result<(), AllocError>
    ensures { OnOk result (map element_of elements.new.items ≡ map element_of elements.old.items ++ map (made.element_made (made.function_in numbers.now (side_of side)) entries) (map element_of own.now)) }
{
    for element in own {
        elements.push(Element {
            table: element.table,
            offset: offset_by(alloc, entries, element.offset.as_slice())?,
            functions: functions_in(alloc, numbers, side, element.functions.as_slice())?,
        })?;
    }
    Ok(())
}

fn functions_in(
    alloc: Global,
    numbers: &Numbers<'_>,
    side: Side,
    functions: &[u32],
) -> Result<List<u32>, AllocError>
    ensures { IfOk result (λ list. list_items list ≡ map (made.function_in numbers.now (side_of side)) functions.now) }
{
    let numbers: Vec<u32> = functions
        .iter()
        .map(|f| function_in(numbers, side, *f))
        .collect(alloc)?;
    Ok(List::from_vec(numbers))
}

/// Appends data segments as they are.
pub fn push_segments<'m>(
    alloc: Global,
    segments: &mut Vec<Segment<'m>>,
    own: &'m [Segment<'_>],
) -> Result<(), AllocError>
    ensures { OnOk result (map segment_of segments.new.items ≡ map segment_of segments.old.items ++ map made.segment_made (map segment_of own.now)) }
{
    for segment in own {
        segments.push(Segment {
            memory: segment.memory,
            offset: offset_kept(alloc, segment.offset.as_slice())?,
            bytes: Bytes::Lent(segment.bytes.as_bytes()),
        })?;
    }
    Ok(())
}
