//! The numbers of stubs, by how many words a type takes and whether it has a result.
ghost use Rattle.std.specs.Prelude.{◌≡◌, ◌≤◌, ◌+◌, [], ◌∷◌, length, map, slice_get, Some};
ghost use Rattle.wasm_tree.specs.Views.{type_of};
ghost use Rattle.wasm2js_translation.specs.Tables;
ghost use Rattle.wasm2js_stubs.specs.Few.{TakeFew};

use wasm_lang::ValType;
use wasm_tree::FuncType;

/// The number for the type of this number.
pub fn stub_of(types: &[FuncType], function_type: u32) -> u64
    requires { TakeFew (map type_of types.now) }
    ensures { result ≡ Tables.stub_number (slice_get (map type_of types.now) function_type) }
{
    match types.get(function_type as usize) {
        None => 0,
        Some(t) => number_of(t),
    }
}

fn number_of(t: &FuncType) -> u64
    requires { length (type_of t.now).params ≤ 1000 }
    ensures { result ≡ Tables.stub_number (Some (type_of t.now)) }
{
    let words = words_of(t.params.as_slice());
    let mark = result_mark(t.results.as_slice());
    2 * words + mark
}

fn result_mark(results: &[ValType]) -> u64
    ensures marked { result ≡ Tables.result_mark results.now }
    ensures small { result ≤ 1 }
{
    if results.is_empty() { 0 } else { 1 }
}

fn words_of(params: &[ValType]) -> u64
    requires { length params.now ≤ 1000 }
    ensures words { result ≡ Tables.words_of params.now }
    ensures few { result ≤ 2000 }
{
    let mut words = 0;
    for param in params {
        words += width(*param);
    }
    words
}

// How many words stand for a value.
fn width(kind: ValType) -> u64
    ensures words { result ≡ Tables.words_of (kind ∷ []) }
    ensures few { result ≤ 2 }
{
    match kind {
        ValType::I32 => 1,
        ValType::I64 => 2,
    }
}
