//! Types and limits.

ghost use Rattle.std.specs.Prelude.{◌≡◌, [], ◌∷◌, OnOk};
ghost use Rattle.wasm_tree.specs.Views.{type_of};
ghost use Rattle.wat_lang.specs.Printing.{type_piece, type_pieces, types_group, function_type_group, use_group, limits_pieces, table_group, memory_group, global_type_pieces};
ghost use Rattle.wat_print.specs.Put.{written, put};

use crate::output::Output;
use std::alloc::AllocError;
use wasm_lang::{GlobalType, Limits, ValType};
use wasm_tree::FuncType;

pub fn put_type(out: &mut Output, kind: ValType) -> Result<(), AllocError>
    ensures { OnOk result (written out.new ≡ put (written out.old) (type_piece kind ∷ [])) }
{
    match kind {
        ValType::I32 => out.word(b"i32"),
        ValType::I64 => out.word(b"i64"),
    }
}

#[tactic(auto, using(crate::proofs::Puts::puts))]
fn put_types(out: &mut Output, types: &[ValType]) -> Result<(), AllocError>
    ensures { OnOk result (written out.new ≡ put (written out.old) (type_pieces types.now)) }
{
    for kind in types {
        put_type(out, *kind)?;
    }
    Ok(())
}

/// Types behind a keyword; nothing where there are none.
#[tactic(auto, using(crate::proofs::Puts::puts))]
pub fn put_types_group(
    out: &mut Output,
    keyword: &[u8],
    types: &[ValType],
) -> Result<(), AllocError>
    ensures { OnOk result (written out.new ≡ put (written out.old) (types_group keyword.now types.now)) }
{
    match types {
        [] => Ok(()),
        [_, ..] => {
            out.open(keyword)?;
            put_types(out, types)?;
            out.close()
        }
    }
}

#[tactic(auto, using(crate::proofs::Puts::puts))]
pub fn put_function_type(out: &mut Output, function: &FuncType) -> Result<(), AllocError>
    ensures { OnOk result (written out.new ≡ put (written out.old) (function_type_group (type_of function.now))) }
{
    out.open(b"func")?;
    put_types_group(out, b"param", function.params.as_slice())?;
    put_types_group(out, b"result", function.results.as_slice())?;
    out.close()
}

/// The number of a type.
#[tactic(auto, using(crate::proofs::Puts::puts))]
pub fn put_use(out: &mut Output, function_type: u32) -> Result<(), AllocError>
    ensures { OnOk result (written out.new ≡ put (written out.old) (use_group function_type)) }
{
    out.open(b"type")?;
    out.number(function_type)?;
    out.close()
}

#[tactic(auto, using(crate::proofs::Puts::puts))]
fn put_limits(out: &mut Output, limits: &Limits) -> Result<(), AllocError>
    ensures { OnOk result (written out.new ≡ put (written out.old) (limits_pieces limits.now)) }
{
    out.number(limits.min)?;
    match limits.max {
        None => Ok(()),
        Some(max) => out.number(max),
    }
}

#[tactic(auto, using(crate::proofs::Puts::puts))]
pub fn put_table(out: &mut Output, limits: &Limits) -> Result<(), AllocError>
    ensures { OnOk result (written out.new ≡ put (written out.old) (table_group limits.now)) }
{
    out.open(b"table")?;
    put_limits(out, limits)?;
    out.word(b"funcref")?;
    out.close()
}

#[tactic(auto, using(crate::proofs::Puts::puts))]
pub fn put_memory(out: &mut Output, limits: &Limits) -> Result<(), AllocError>
    ensures { OnOk result (written out.new ≡ put (written out.old) (memory_group limits.now)) }
{
    out.open(b"memory")?;
    put_limits(out, limits)?;
    out.close()
}

#[tactic(auto, using(crate::proofs::Puts::puts))]
pub fn put_global_type(out: &mut Output, kind: GlobalType) -> Result<(), AllocError>
    ensures { OnOk result (written out.new ≡ put (written out.old) (global_type_pieces kind)) }
{
    if kind.mutable {
        out.open(b"mut")?;
        put_type(out, kind.kind)?;
        out.close()
    } else {
        put_type(out, kind.kind)
    }
}
