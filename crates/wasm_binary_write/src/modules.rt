//! Modules (WebAssembly Core 1.0, section 5.5.15).
ghost use Rattle.std.specs.Prelude.{◌≡◌, ◌++◌, IfOk, OnOk};
ghost use Rattle.wasm_tree.specs.Views.{module_of};
ghost use Rattle.wasm_binary_write.specs.Spelling.{spelling, start_section, section, table};
ghost use Rattle.wasm_binary_write.specs.Parts.{before_imports, after_imports};

use crate::imports::import_section;
use crate::leb::push_unsigned;
use crate::spell::{push_section, push_sized};
use crate::types::Table;
use key_hashes::KeyHashes;
use shared_bytes::SharedBytes;
use std::alloc::{AllocError, Global};
use wasm_tree::{Limits, Module};

// The bytes `\0asm`, and the version 1.
const HEADER: [u8; 8] = [0x00, 0x61, 0x73, 0x6d, 0x01, 0x00, 0x00, 0x00];

/// The module in the binary format, each part in its shortest spelling: numbers in their shortest LEB128
/// form, locals in the longest runs of one type, no section without items, no custom section and no data
/// count. Names and segments are written as they are.
pub fn write(alloc: Global, module: &Module<'_>) -> Result<Vec<u8>, AllocError>
    ensures { IfOk result (λ bytes. bytes.items ≡ spelling (module_of «module».now)) }
{
    let mut out = begun(alloc, module)?;
    push_section(alloc, &mut out, 2, module.imports.as_slice())?;
    push_rest(alloc, &mut out, module)?;
    Ok(out)
}

/// What `write` writes. A long name of imports is held once, however many have it.
///
/// The hashers are those of a map of these names.
pub fn write_shared(
    alloc: Global,
    module: &Module<'_>,
    hashes: KeyHashes,
) -> Result<SharedBytes, AllocError>
    ensures { IfOk result (λ bytes. bytes ≡ spelling (module_of «module».now)) }
{
    let mut shared = import_section(alloc, module.imports.as_slice(), hashes)?;
    shared.push_front(begun(alloc, module)?)?;
    let mut rest = Vec::new(alloc);
    push_rest(alloc, &mut rest, module)?;
    Ok(shared.followed_by(rest))
}

// What stands before the imports.
fn begun(alloc: Global, module: &Module<'_>) -> Result<Vec<u8>, AllocError>
    ensures { IfOk result (λ out. out.items ≡ before_imports (module_of «module».now)) }
{
    let mut out = Vec::from_slice(alloc, &HEADER)?;
    push_section(alloc, &mut out, 1, module.types.as_slice())?;
    Ok(out)
}

// What stands behind the imports.
fn push_rest(alloc: Global, out: &mut Vec<u8>, module: &Module<'_>) -> Result<(), AllocError>
    ensures { OnOk result (out.new.items ≡ out.old.items ++ after_imports (module_of «module».now)) }
{
    push_section(alloc, out, 3, module.functions.as_slice())?;
    push_tables(alloc, out, module.tables.as_slice())?;
    push_section(alloc, out, 5, module.memories.as_slice())?;
    push_section(alloc, out, 6, module.globals.as_slice())?;
    push_section(alloc, out, 7, module.exports.as_slice())?;
    push_start(alloc, out, module.start)?;
    push_section(alloc, out, 9, module.elements.as_slice())?;
    push_section(alloc, out, 10, module.bodies.as_slice())?;
    push_section(alloc, out, 11, module.segments.as_slice())
}

fn push_tables(alloc: Global, out: &mut Vec<u8>, tables: &[Limits]) -> Result<(), AllocError>
    ensures { OnOk result (out.new.items ≡ out.old.items ++ section 4 table tables.now) }
{
    let mut list = Vec::new(alloc);
    for limits in tables {
        list.push(Table(*limits))?;
    }
    push_section(alloc, out, 4, &list)
}

fn push_start(alloc: Global, out: &mut Vec<u8>, start: Option<u32>) -> Result<(), AllocError>
    ensures { OnOk result (out.new.items ≡ out.old.items ++ start_section start) }
{
    let Some(function) = start else {
        return Ok(());
    };
    let mut content = Vec::new(alloc);
    push_unsigned(&mut content, function as usize)?;
    out.push(8)?;
    push_sized(out, &content)
}
