//! Rows of fields.

ghost use Rattle.std.specs.Prelude.{◌≡◌, IfOk, OnOk, map};
ghost use Rattle.wasm_tree.specs.Views.{type_of};
ghost use Rattle.wasm_lang.specs.Limits.{params_of};
ghost use Rattle.wat_lang.specs.Modules.{function_type_in};
ghost use Rattle.wat_lang.specs.Names as names;
ghost use Rattle.wat_lang.specs.Rows as spec;
ghost use Rattle.wat_read_names.specs.Bound.{space_names};
ghost use Rattle.wat_read_names.specs.Fields.{field_of};
ghost use Rattle.wat_read_tokens.specs.Marks.{marks_of};
ghost use Rattle.wat_read_refusals.specs.Joined.{join};
ghost use Rattle.wat_read_rows.specs.Heads.{rows_by_kind};

use crate::heads::head_rows;
use key_hashes::KeyHashes;
use std::alloc::{AllocError, Global};
use wasm_tree::FuncType;
use wat_lang::{FieldKind, Part, Space};
use wat_marks::MarkedToken;
use wat_read_names::{Field, Ids, Spaces, capped_use, local_names, params_of};
use wat_read_refusals::{Least, from_count};

/// The most parameters of a type.
const MOST_PARAMS: usize = 2_000;

/// The most parameters and locals of a function.
const MOST_LOCALS: usize = 60_000;

/// How many parameters the type of a function has.
fn params_in(spaces: &Spaces<'_>, types: &[FuncType], parts: &[MarkedToken<'_>]) -> usize
    ensures { result ≡ params_of (map type_of types.now) (function_type_in (space_names spaces.now) (marks_of parts.now)) }
{
    let _count = types.len();
    params_of(types, capped_use(&spaces.types, parts) as usize)
}

/// The parameters and locals that may be named in a field.
pub fn locals_of<'a>(
    alloc: Global,
    hashes: KeyHashes,
    spaces: &Spaces<'_>,
    types: &[FuncType],
    field: &Field<'_, 'a>,
) -> Result<Ids<'a>, AllocError>
    ensures { IfOk result (λ ids. ids ≡ spec.locals_of (space_names spaces.now) (map type_of types.now) (field_of field.now)) }
{
    match field.kind {
        FieldKind::Func => local_names(
            alloc,
            hashes,
            params_in(spaces, types, field.parts),
            field.parts,
        ),
        _ => Ids::new(alloc, hashes, 0, Vec::new(alloc)),
    }
}

fn function_rows(
    alloc: Global,
    least: &mut Least,
    spaces: &Spaces<'_>,
    types: &[FuncType],
    field: &Field<'_, '_>,
) -> Result<(), AllocError>
    ensures { OnOk result (least.new ≡ join least.old (spec.least (spec.function_rows (space_names spaces.now) (map type_of types.now) field.now.at (marks_of field.now.parts.now)))) }
{
    head_rows(alloc, least, spaces, types, field.at, field.parts)?;
    from_count(
        least,
        MOST_LOCALS,
        params_in(spaces, types, field.parts),
        Part::Local,
        field.parts,
    );
    Ok(())
}

fn imported_rows(
    alloc: Global,
    least: &mut Least,
    spaces: &Spaces<'_>,
    types: &[FuncType],
    field: &Field<'_, '_>,
) -> Result<(), AllocError>
    ensures { OnOk result (least.new ≡ join least.old (spec.least (spec.imported_rows (space_names spaces.now) (map type_of types.now) (marks_of field.now.parts.now) (names.entry_of (field_of field.now))))) }
{
    match field.entry() {
        None => Ok(()),
        Some(entry) => match entry.space {
            Space::Func => {
                head_rows(alloc, least, spaces, types, entry.at, field.parts)?;
                Ok(())
            }
            _ => Ok(()),
        },
    }
}

/// Notes the rows of what a field of its kind says.
pub fn rows_by_kind(
    alloc: Global,
    least: &mut Least,
    spaces: &Spaces<'_>,
    types: &[FuncType],
    field: &Field<'_, '_>,
) -> Result<(), AllocError>
    ensures { OnOk result (least.new ≡ join least.old (spec.least (rows_by_kind (space_names spaces.now) (map type_of types.now) (field_of field.now)))) }
{
    match field.kind {
        FieldKind::Type => {
            from_count(least, MOST_PARAMS, 0, Part::Param, field.parts);
            Ok(())
        }
        FieldKind::Func => {
            function_rows(alloc, least, spaces, types, field)?;
            Ok(())
        }
        FieldKind::Import => {
            imported_rows(alloc, least, spaces, types, field)?;
            Ok(())
        }
        _ => Ok(()),
    }
}
