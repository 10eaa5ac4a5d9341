// Bound imports that come back to themselves.

ghost use Rattle.std.specs.Prelude.{◌≡◌, ◌+◌, ◌<◌, ◌^◌, ℕ, Some, true, length, map, slice_get, slice_set, IfOk};
ghost use Rattle.wasm_tree.specs.Views.{import_of};
ghost use Rattle.wasm_link_lang.specs.Pairs.{Pair};
ghost use Rattle.wasm_link_lang.specs.Refusal.{comes_back, cycle};
ghost use Rattle.wasm_link_bind.specs.Marks.{has, is_member};

use crate::bound::is_function;
use std::alloc::{AllocError, Global};
use wasm_tree::Import;

/// The numbers of the first imports of both modules that come back to themselves.
#[derive(Clone, Copy, PartialEq, Eq, Debug)]
pub struct Cycles {
    pub first: Option<usize>,
    pub second: Option<usize>,
}

/// Whether each place is one of these, which are as many.
pub fn marks_of(alloc: Global, places: &[usize]) -> Result<Vec<bool>, AllocError>
    ensures { IfOk result (λ marks. (b : ℕ) → b < length places.now → slice_get marks.items b ≡ Some (has places.now b)) }
{
    let mut marks = vec![in alloc; false; places.len()]?;
    for place in places {
        mark(&mut marks, *place);
    }
    Ok(marks)
}

fn mark(marks: &mut Vec<bool>, place: usize)
    ensures { marks.new.items ≡ slice_set marks.old.items place true }
{
    if place < marks.len() {
        marks[place] = true;
    }
}

/// The number of the first import that comes back to itself, where the first function import has this address.
pub fn first_member(
    next: &[Option<usize>],
    marks: &[bool],
    from: usize,
    imports: &[Import<'_>],
) -> Option<usize>
    requires { from + length imports.now < 2 ^ 64 }
    ensures { (w : Pair) → ((a : ℕ) → is_member next.now marks.now a ≡ comes_back w a) → result ≡ cycle w 0 from (map import_of imports.now) }
{
    let mut address = from;
    for (i, import) in imports.iter().enumerate() {
        if is_function(import.kind) {
            if is_marked(next, marks, address) {
                return Some(i);
            }
            address += 1;
        }
    }
    None
}

// Whether the function at an address is a bound import that is marked.
fn is_marked(next: &[Option<usize>], marks: &[bool], address: usize) -> bool
    ensures { result ≡ is_member next.now marks.now address }
{
    match (next.get(address), marks.get(address)) {
        (Some(Some(_)), Some(mark)) => *mark,
        _ => false,
    }
}
