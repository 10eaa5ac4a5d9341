//! Rows of the heads of functions.

ghost use Rattle.std.specs.Prelude.{◌≡◌, ◌∷◌, [], IfOk, OnOk, map};
ghost use Rattle.sem_words.specs.Lists.{list_items};
ghost use Rattle.wasm_tree.specs.Views.{type_of};
ghost use Rattle.wat_lang.specs.Rows as spec;
ghost use Rattle.wat_read_names.specs.Bound.{space_names};
ghost use Rattle.wat_read_tokens.specs.Marks.{marks_of};
ghost use Rattle.wat_read_refusals.specs.Joined.{join};
ghost use Rattle.wat_read_rows.specs.Heads.{differs};

use sem_words::List;
use std::alloc::{AllocError, Global};
use wasm_lang::ValType;
use wasm_tree::FuncType;
use wat_lang::Row;
use wat_marks::MarkedToken;
use wat_read_names::{Spaces, known_use, signature};
use wat_read_refusals::Least;

fn same_type(a: ValType, b: ValType) -> bool
    ensures { result ≡ spec.same_types (a ∷ []) (b ∷ []) }
{
    match (a, b) {
        (ValType::I32, ValType::I32) => true,
        (ValType::I64, ValType::I64) => true,
        (ValType::I32, ValType::I64) => false,
        (ValType::I64, ValType::I32) => false,
    }
}

fn same_types(a: &[ValType], b: &[ValType]) -> bool
    ensures { result ≡ spec.same_types a.now b.now }
{
    if a.len() != b.len() {
        return false;
    }
    for i in 0..a.len() {
        if !same_type(a[i], b[i]) {
            return false;
        }
    }
    true
}

fn are_none(types: &List<ValType>) -> bool
    ensures { result ≡ spec.same_types (list_items types.now) [] }
{
    types.is_empty()
}

fn is_empty(signature: &FuncType) -> bool
    ensures { result ≡ spec.same_signature (type_of signature.now) (record { params = []; results = [] }) }
{
    are_none(&signature.params) && are_none(&signature.results)
}

fn same_signature(a: &FuncType, b: &FuncType) -> bool
    ensures { result ≡ spec.same_signature (type_of a.now) (type_of b.now) }
{
    same_types(a.params.as_slice(), b.params.as_slice())
        && same_types(a.results.as_slice(), b.results.as_slice())
}

fn differs(written: &FuncType, named: &FuncType) -> bool
    ensures { result ≡ differs (type_of written.now) (type_of named.now) }
{
    !is_empty(written) && !same_signature(written, named)
}

/// Whether the parameters and results that are written aren't those of the type, or there is no such type.
fn is_bad_use(
    alloc: Global,
    types: &[FuncType],
    parts: &[MarkedToken<'_>],
    number: Option<u32>,
) -> Result<bool, AllocError>
    ensures { IfOk result (λ b. b ≡ spec.is_bad_use (map type_of types.now) (marks_of parts.now) number) }
{
    let Some(number) = number else {
        return Ok(false);
    };
    match types.get(number as usize) {
        Some(named) => {
            let written = signature(alloc, parts)?;
            Ok(differs(&written, named))
        }
        None => Ok(true),
    }
}

/// Notes that the head of a function isn't that of its type, at the place.
pub fn head_rows(
    alloc: Global,
    least: &mut Least,
    spaces: &Spaces<'_>,
    types: &[FuncType],
    at: u64,
    parts: &[MarkedToken<'_>],
) -> Result<(), AllocError>
    ensures { OnOk result (least.new ≡ join least.old (spec.least (spec.head_rows (space_names spaces.now) (map type_of types.now) at (marks_of parts.now)))) }
{
    let bad = is_bad_use(alloc, types, parts, known_use(&spaces.types, parts))?;
    least.note(bad, Row::TypeUse, at);
    Ok(())
}
