//! The types of functions.

ghost use Rattle.std.specs.Prelude.{◌≡◌, ◌++◌, map, slice_get, MatchOption, OnOk};
ghost use Rattle.wasm_tree.specs.Views.{type_of};
ghost use Rattle.bridge_lang.specs.Listing as spec;

use std::alloc::AllocError;
use wasm_tree::{FuncType, ValType};

fn type_name(kind: ValType) -> &'static [u8]
    ensures { result.now ≡ spec.type_name kind }
{
    match kind {
        ValType::I32 => b"i32",
        ValType::I64 => b"i64",
    }
}

/// Types with single spaces between.
#[tactic(auto, using(crate::proofs::Steps::type_steps))]
fn push_types(out: &mut Vec<u8>, types: &[ValType]) -> Result<(), AllocError>
    ensures { OnOk result (out.new.items ≡ out.old.items ++ spec.types_text types.now) }
{
    match types {
        [] => Ok(()),
        [first, others @ ..] => {
            out.extend_from_slice(type_name(*first))?;
            for kind in others {
                out.extend_from_slice(b" ")?;
                out.extend_from_slice(type_name(*kind))?;
            }
            Ok(())
        }
    }
}

/// The type of a result, or a dash where there is none.
fn push_result(out: &mut Vec<u8>, results: &[ValType]) -> Result<(), AllocError>
    ensures { OnOk result (out.new.items ≡ out.old.items ++ spec.result_text results.now) }
{
    match results {
        [] => out.extend_from_slice(b"-"),
        [first, ..] => out.extend_from_slice(type_name(*first)),
    }
}

fn push_type(out: &mut Vec<u8>, function: &FuncType) -> Result<(), AllocError>
    ensures { OnOk result (out.new.items ≡ out.old.items ++ spec.type_text (type_of function.now)) }
{
    out.extend_from_slice(b"(")?;
    push_types(out, function.params.as_slice())?;
    out.extend_from_slice(b") ")?;
    push_result(out, function.results.as_slice())
}

/// The type of this number.
fn type_at(types: &[FuncType], number: u32) -> Option<&FuncType>
    ensures { MatchOption result (slice_get (map type_of types.now) number ≡ None) (λ t. slice_get (map type_of types.now) number ≡ Some (type_of t.now)) }
{
    types.get(number as usize)
}

/// The type of a number. One that isn't there, which no valid module names, is printed as that of nothing.
pub fn push_numbered(out: &mut Vec<u8>, types: &[FuncType], number: u32) -> Result<(), AllocError>
    ensures { OnOk result (out.new.items ≡ out.old.items ++ spec.numbered_text (map type_of types.now) number) }
{
    match type_at(types, number) {
        Some(function) => push_type(out, function),
        None => out.extend_from_slice(b"() -"),
    }
}
