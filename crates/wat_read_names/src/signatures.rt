//! The types of functions.

ghost use Rattle.std.specs.Prelude.{◌≡◌, IfOk, OnOk, map, length, ◌++◌, [], ◌∷◌};
ghost use Rattle.sem_words.specs.Lists.{list_items};
ghost use Rattle.wasm_lang.specs.Limits as limits;
ghost use Rattle.wasm_tree.specs.Views.{type_of};
ghost use Rattle.wat_lang.specs.Names as spec;
ghost use Rattle.wat_marks.specs.Views.{marked_of};
ghost use Rattle.wat_read_tokens.specs.Marks.{marks_of, only};

use sem_words::List;
use std::alloc::{AllocError, Global};
use wasm_lang::ValType;
use wasm_tree::FuncType;
use wat_lang::Part;
use wat_marks::MarkedToken;
use wat_read_tokens::{Wanted, value_type};

fn push_type(
    types: &mut Vec<ValType>,
    part: Part,
    token: &MarkedToken<'_>,
) -> Result<(), AllocError>
    ensures { OnOk result (types.new.items ≡ types.old.items ++ only (spec.types_part part (marked_of token.now).mark) (spec.type_of (marked_of token.now))) }
{
    if !Wanted::Type(part).is(token.mark) {
        return Ok(());
    }
    types.push(value_type(token))?;
    Ok(())
}

/// The types that a part of a head lists.
pub fn types_in(
    alloc: Global,
    part: Part,
    parts: &[MarkedToken<'_>],
) -> Result<List<ValType>, AllocError>
    ensures { IfOk result (λ types. list_items types ≡ spec.types_in part (marks_of parts.now)) }
{
    let mut types = Vec::new(alloc);
    for token in parts {
        push_type(&mut types, part, token)?;
    }
    Ok(List::from_vec(types))
}

/// The parameters and results that a head lists.
pub fn signature(alloc: Global, parts: &[MarkedToken<'_>]) -> Result<FuncType, AllocError>
    ensures { IfOk result (λ t. type_of t ≡ spec.signature_of (marks_of parts.now)) }
{
    let params = types_in(alloc, Part::Param, parts)?;
    let results = types_in(alloc, Part::Result, parts)?;
    Ok(FuncType { params, results })
}

/// Appends the type that a field of these parts defines.
pub fn push_signature(
    alloc: Global,
    types: &mut Vec<FuncType>,
    parts: &[MarkedToken<'_>],
) -> Result<(), AllocError>
    ensures { OnOk result (map type_of types.new.items ≡ map type_of types.old.items ++ spec.signature_of (marks_of parts.now) ∷ []) }
{
    types.push(signature(alloc, parts)?)?;
    Ok(())
}

/// How many parameters the type with the number has.
pub fn params_of(types: &[FuncType], number: usize) -> usize
    ensures { result ≡ limits.params_of (map type_of types.now) number }
{
    match types.get(number) {
        Some(found) => found.params.len(),
        None => 0,
    }
}
