//! The section of imports, in which a long name stands once for all that have it.
ghost use Rattle.std.specs.Prelude.{◌≡◌, ◌++◌, map, IfOk, OnOk};
ghost use Rattle.wasm_tree.specs.Views.{import_of};
ghost use Rattle.wasm_binary_write.specs.Spelling.{imported, section, vector};

use crate::leb::{push_unsigned, push_wide};
use crate::spell::{Spell, push_sized};
use key_hashes::KeyHashes;
use shared_bytes::Sharing;
use std::alloc::{AllocError, Global};
use std::mem;
use wasm_tree::Import;

// A name of so many bytes is long.
const LONG: usize = 256;

/// The section of these imports; no bytes where there are none.
pub fn import_section<'a>(
    alloc: Global,
    imports: &'a [Import<'_>],
    hashes: KeyHashes,
) -> Result<Sharing<'a>, AllocError>
    ensures { IfOk result (λ bytes. bytes ≡ section 2 imported (map import_of imports.now)) }
{
    let mut shared = Sharing::new(alloc, hashes);
    if imports.is_empty() {
        return Ok(shared);
    }
    push_imports(alloc, &mut shared, imports)?;
    let mut head = Vec::new(alloc);
    head.push(2)?;
    push_wide(&mut head, shared.length())?;
    shared.push_front(head)?;
    Ok(shared)
}

// Appends their count and the imports.
fn push_imports<'a>(
    alloc: Global,
    shared: &mut Sharing<'a>,
    imports: &'a [Import<'_>],
) -> Result<(), AllocError>
    ensures { OnOk result (shared.new ≡ shared.old ++ vector imported (map import_of imports.now)) }
{
    let mut pending = Vec::new(alloc);
    push_unsigned(&mut pending, imports.len())?;
    for import in imports {
        push_import(alloc, shared, &mut pending, import)?;
    }
    shared.push(pending)
}

// Appends an import to what is pending, which stands behind the shared bytes. A long name closes it.
fn push_import<'a>(
    alloc: Global,
    shared: &mut Sharing<'a>,
    pending: &mut Vec<u8>,
    import: &'a Import<'_>,
) -> Result<(), AllocError>
    ensures { OnOk result (shared.new ++ pending.new.items ≡ (shared.old ++ pending.old.items) ++ imported (import_of import.now)) }
{
    let name = import.field.as_bytes();
    if name.len() < LONG {
        return import.push_to(alloc, pending);
    }
    push_sized(pending, import.module.as_bytes())?;
    push_unsigned(pending, name.len())?;
    shared.push(mem::replace(pending, Vec::new(alloc)))?;
    shared.push_again(alloc, name)?;
    import.kind.push_to(alloc, pending)
}
