//! The line of counts.

ghost use Rattle.std.specs.Prelude.{◌≡◌, IfOk};
ghost use Rattle.wasm_tree.specs.Views.{module_of};
ghost use Rattle.bridge_lang.specs.Listing as spec;

use itoa::Buffer;
use std::alloc::{AllocError, Global};
use wasm_tree::Module;

/// The line of counts: the functions that the module defines, its imports and its exports.
pub fn counts_line(alloc: Global, module: &Module<'_>) -> Result<Vec<u8>, AllocError>
    ensures { IfOk result (λ line. line.items ≡ spec.counts_line (module_of «module».now)) }
{
    let mut functions = Buffer::new();
    let mut imports = Buffer::new();
    let mut exports = Buffer::new();
    let mut line = Vec::from_slice(alloc, b"wasm functions ")?;
    line.extend_from_slice(functions.format(module.functions.len()).as_bytes())?;
    line.extend_from_slice(b" imports ")?;
    line.extend_from_slice(imports.format(module.imports.len()).as_bytes())?;
    line.extend_from_slice(b" exports ")?;
    line.extend_from_slice(exports.format(module.exports.len()).as_bytes())?;
    line.extend_from_slice(b"\n")?;
    Ok(line)
}
