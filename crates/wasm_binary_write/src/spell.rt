//! What is written, and lists of it.
ghost use Rattle.std.specs.Prelude.{◌≡◌, ◌≤◌, ◌-◌, ℕ, List, ◌++◌, OnOk, drop, length, take};
ghost use Rattle.wasm_binary_write.specs.Spelling.{items, vector, section, sized};

use crate::leb::push_unsigned;
use std::alloc::{AllocError, Global};

/// A value that has a spelling.
pub trait Spell {
    ghost spelling: { Self → List ℕ };

    /// Appends the spelling.
    fn push_to(&self, alloc: Global, out: &mut Vec<u8>) -> Result<(), AllocError>
        ensures { OnOk result (out.new.items ≡ out.old.items ++ spelling self.now) };
}

/// Appends items, one after another.
pub fn push_items<T: Spell>(alloc: Global, out: &mut Vec<u8>, list: &[T]) -> Result<(), AllocError>
    ensures { OnOk result (out.new.items ≡ out.old.items ++ items T.spelling list.now) }
{
    for item in list {
        item.push_to(alloc, out)?;
    }
    Ok(())
}

/// Appends their count and the items.
pub fn push_vector<T: Spell>(alloc: Global, out: &mut Vec<u8>, list: &[T]) -> Result<(), AllocError>
    ensures { OnOk result (out.new.items ≡ out.old.items ++ vector T.spelling list.now) }
{
    push_unsigned(out, list.len())?;
    push_items(alloc, out, list)
}

/// Appends bytes behind their count.
pub fn push_sized(out: &mut Vec<u8>, bytes: &[u8]) -> Result<(), AllocError>
    ensures { OnOk result (out.new.items ≡ out.old.items ++ sized bytes.now) }
{
    push_unsigned(out, bytes.len())?;
    out.extend_from_slice(bytes)?;
    Ok(())
}

/// Appends a section of items; none where there are no items.
pub fn push_section<T: Spell>(
    alloc: Global,
    out: &mut Vec<u8>,
    id: u8,
    list: &[T],
) -> Result<(), AllocError>
    ensures { OnOk result (out.new.items ≡ out.old.items ++ section id T.spelling list.now) }
{
    if list.is_empty() {
        return Ok(());
    }
    out.push(id)?;
    let start = out.len();
    push_vector(alloc, out, list)?;
    put_size(out, start)
}

/// Puts their count before the bytes that were written from here on, so that no second copy of them is made.
pub fn put_size(out: &mut Vec<u8>, start: usize) -> Result<(), AllocError>
    requires { start ≤ length out.old.items }
    ensures { OnOk result (out.new.items ≡ take start out.old.items ++ sized (drop start out.old.items)) }
{
    let end = out.len();
    push_unsigned(out, end - start)?;
    out[start..].rotate_left(end - start);
    Ok(())
}
