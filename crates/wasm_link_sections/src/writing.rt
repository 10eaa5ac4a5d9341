// The bytes of the module that a pair is linked to.

ghost use Rattle.std.specs.Prelude.{◌≡◌, ◌++◌, IfOk, OnOk};
ghost use Rattle.wasm_binary_write.specs.Spelling.{spelling, start_section};
ghost use Rattle.wasm_link_sections.specs.Made as made;

use crate::linked::front;
use crate::start::start;
use crate::written_back::{put_elements, put_exports, put_segments};
use crate::written_bodies::put_bodies;
use std::alloc::{AllocError, Global};
use wasm_binary_write::{push_sized, push_unsigned, write};
use wasm_link_bind::Numbers;

/// The shortest spelling of the module that a pair is linked to, written section by section. What is large is never held as a tree.
pub fn written(alloc: Global, numbers: &Numbers<'_>) -> Result<Vec<u8>, AllocError>
    ensures { IfOk result (λ bytes. bytes.items ≡ spelling (made.module_made numbers.now)) }
{
    let mut out = begun(alloc, numbers)?;
    put_exports(alloc, &mut out, numbers)?;
    put_start(alloc, &mut out, numbers)?;
    put_elements(alloc, &mut out, numbers)?;
    put_bodies(alloc, &mut out, numbers)?;
    put_segments(alloc, &mut out, numbers)?;
    Ok(out)
}

// What stands before the exports.
fn begun(alloc: Global, numbers: &Numbers<'_>) -> Result<Vec<u8>, AllocError>
    ensures { IfOk result (λ bytes. bytes.items ≡ spelling (made.front (made.module_made numbers.now))) }
{
    let module = front(alloc, numbers)?;
    let out = write(alloc, &module)?;
    Ok(out)
}

// The section of the start.
fn put_start(alloc: Global, out: &mut Vec<u8>, numbers: &Numbers<'_>) -> Result<(), AllocError>
    ensures { OnOk result (out.new.items ≡ out.old.items ++ start_section (made.module_made numbers.now).start) }
{
    let Some(function) = start(numbers) else {
        return Ok(());
    };
    let mut content = Vec::new(alloc);
    push_unsigned(&mut content, function as usize)?;
    out.push(8)?;
    push_sized(out, content.as_slice())
}
