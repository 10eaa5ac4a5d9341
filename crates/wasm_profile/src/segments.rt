// Where the segments of the table and the memory lie, those of the table first.

ghost use Rattle.std.specs.Prelude.{◌≡◌, ◌+◌, ◌<◌, ◌^◌, ℕ, List, length, map};
ghost use Rattle.wasm_lang.specs.Modules.{DataSegment};
ghost use Rattle.wasm_tree.specs.Views.{element_of, instr_of, module_of, segment_of};
ghost use Rattle.wasm_lang_valid.specs.Profile;
ghost use Rattle.wasm_lang_valid.specs.Runnable.{or_else};

use wasm_tree::{Element, Instr, Module, Segment};

/// The number of the first segment whose offset is a global.
pub fn offset_from_import(module: &Module<'_>) -> Option<usize>
    ensures { result ≡ Profile.offset_from_import 0 (module_of «module».now).elements (module_of «module».now).segments }
{
    let elements = module.elements.as_slice();
    match global_element(elements) {
        Some(i) => Some(i),
        None => global_segment(elements.len(), module.segments.as_slice()),
    }
}

// The first element whose offset is a global.
fn global_element(elements: &[Element]) -> Option<usize>
    ensures { (segments : List DataSegment) → Profile.offset_from_import 0 (map element_of elements.now) segments ≡ or_else result (Profile.global_segment (length elements.now) segments) }
{
    for (i, element) in elements.iter().enumerate() {
        if is_global_offset(element.offset.as_slice()) {
            return Some(i);
        }
    }
    None
}

// The number of the first data segment whose offset is a global, after so many elements.
fn global_segment(before: usize, segments: &[Segment<'_>]) -> Option<usize>
    requires { before + length segments.now < 2 ^ 64 }
    ensures { result ≡ Profile.global_segment before (map segment_of segments.now) }
{
    for (i, segment) in segments.iter().enumerate() {
        if is_global_offset(segment.offset.as_slice()) {
            return Some(before + i);
        }
    }
    None
}

fn is_global_offset(offset: &[Instr]) -> bool
    ensures { result ≡ Profile.is_global_offset (map instr_of offset.now) }
{
    match offset {
        [Instr::GlobalGet(_), ..] => true,
        _ => false,
    }
}

/// The number of the first segment that passes the end of the table, which has so many entries, or of the memory,
/// which has so many bytes.
pub fn segment_outside(module: &Module<'_>, entries: u32, bytes: u64) -> Option<usize>
    ensures { result ≡ Profile.segment_outside entries bytes 0 (module_of «module».now).elements (module_of «module».now).segments }
{
    let elements = module.elements.as_slice();
    match element_outside(elements, u64::from(entries)) {
        Some(i) => Some(i),
        None => data_outside(elements.len(), module.segments.as_slice(), bytes),
    }
}

// The first element that passes the end of a table of so many entries.
fn element_outside(elements: &[Element], entries: u64) -> Option<usize>
    ensures { (bytes : ℕ) (segments : List DataSegment) → Profile.segment_outside entries bytes 0 (map element_of elements.now) segments ≡ or_else result (Profile.outside_memory bytes (length elements.now) segments) }
{
    for (i, element) in elements.iter().enumerate() {
        let offset = constant_offset(element.offset.as_slice());
        if passes(offset, element.functions.len(), entries) {
            return Some(i);
        }
    }
    None
}

// The number of the first data segment that passes the end of a memory of so many bytes, after so many elements.
fn data_outside(before: usize, segments: &[Segment<'_>], bytes: u64) -> Option<usize>
    requires { before + length segments.now < 2 ^ 64 }
    ensures { result ≡ Profile.outside_memory bytes before (map segment_of segments.now) }
{
    for (i, segment) in segments.iter().enumerate() {
        let offset = constant_offset(segment.offset.as_slice());
        if passes(offset, segment.bytes.as_bytes().len(), bytes) {
            return Some(before + i);
        }
    }
    None
}

// The offset where it is a constant.
fn constant_offset(offset: &[Instr]) -> Option<u32>
    ensures { result ≡ Profile.constant_offset (map instr_of offset.now) }
{
    match offset {
        [Instr::Const32(word), ..] => Some(*word),
        _ => None,
    }
}

// Whether so many places from the offset on pass the end of a room.
fn passes(offset: Option<u32>, size: usize, room: u64) -> bool
    requires { size < 2 ^ 63 }
    ensures { result ≡ Profile.passes offset size room }
{
    match offset {
        None => false,
        Some(offset) => room < u64::from(offset) + size as u64,
    }
}
