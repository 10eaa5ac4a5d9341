//! What one field says.

ghost use Rattle.std.specs.Prelude.{◌≡◌, [], IfOk};
ghost use Rattle.sem_words.specs.Lists.{list_items};
ghost use Rattle.std.specs.Prelude.{map};
ghost use Rattle.wasm_tree.specs.Views as views;
ghost use Rattle.wat_lang.specs.Modules as spec;
ghost use Rattle.wat_lang.specs.Rows.{number_rows};
ghost use Rattle.wat_read_names.specs.Bound.{space_names};
ghost use Rattle.wat_read_tokens.specs.Marks.{marks_of};

use crate::kinds::{export_kind_in, global_type_in, import_kind_in};
use crate::strings::{segment_bytes, string_in};
use key_hashes::KeyHashes;
use sem_words::List;
use std::alloc::{AllocError, Global};
use wasm_tree::{Element, GlobalDef, Import, Instr, Segment, WasmExport};
use wat_lang::Space;
use wat_marks::MarkedToken;
use wat_read_bodies::{code, used};
use wat_read_names::{Ids, Spaces};
use wat_read_tokens::Wanted;

/// An import.
pub fn import_of<'a>(
    alloc: Global,
    spaces: &Spaces<'_>,
    parts: &[MarkedToken<'a>],
) -> Result<Import<'a>, AllocError>
    requires { number_rows (marks_of parts.now) ≡ [] }
    ensures { IfOk result (λ i. views.import_of i ≡ spec.import_of (space_names spaces.now) (marks_of parts.now)) }
{
    let module = string_in(alloc, Wanted::ModuleName, parts)?;
    let field = string_in(alloc, Wanted::FieldName, parts)?;
    Ok(Import {
        module,
        field,
        kind: import_kind_in(spaces, parts),
    })
}

/// The expression of a constant: no locals are there.
fn constant(
    alloc: Global,
    hashes: KeyHashes,
    spaces: &Spaces<'_>,
    parts: &[MarkedToken<'_>],
) -> Result<List<Instr>, AllocError>
    requires { number_rows (marks_of parts.now) ≡ [] }
    ensures { IfOk result (λ list. map views.instr_of (list_items list) ≡ spec.code_in (space_names spaces.now) [] (marks_of parts.now)) }
{
    let locals = Ids::unnamed(alloc, hashes, 0);
    code(alloc, hashes, spaces, &locals, parts)
}

/// A global.
pub fn global_of(
    alloc: Global,
    hashes: KeyHashes,
    spaces: &Spaces<'_>,
    parts: &[MarkedToken<'_>],
) -> Result<GlobalDef, AllocError>
    requires { number_rows (marks_of parts.now) ≡ [] }
    ensures { IfOk result (λ g. views.global_of g ≡ spec.global_of (space_names spaces.now) (marks_of parts.now)) }
{
    let init = constant(alloc, hashes, spaces, parts)?;
    Ok(GlobalDef {
        kind: global_type_in(parts),
        init,
    })
}

/// An export.
pub fn export_of<'a>(
    alloc: Global,
    spaces: &Spaces<'_>,
    parts: &[MarkedToken<'a>],
) -> Result<WasmExport<'a>, AllocError>
    requires { number_rows (marks_of parts.now) ≡ [] }
    ensures { IfOk result (λ e. views.export_of e ≡ spec.export_of (space_names spaces.now) (marks_of parts.now)) }
{
    let name = string_in(alloc, Wanted::ExportName, parts)?;
    Ok(WasmExport {
        name,
        kind: export_kind_in(spaces, parts),
    })
}

/// An element segment.
pub fn element_of(
    alloc: Global,
    hashes: KeyHashes,
    spaces: &Spaces<'_>,
    parts: &[MarkedToken<'_>],
) -> Result<Element, AllocError>
    requires { number_rows (marks_of parts.now) ≡ [] }
    ensures { IfOk result (λ e. views.element_of e ≡ spec.element_of (space_names spaces.now) (marks_of parts.now)) }
{
    let offset = constant(alloc, hashes, spaces, parts)?;
    let functions = used(alloc, &spaces.functions, Space::Func, parts)?;
    Ok(Element {
        table: 0,
        offset,
        functions: List::from_vec(functions),
    })
}

/// A data segment.
pub fn segment_of<'a>(
    alloc: Global,
    hashes: KeyHashes,
    spaces: &Spaces<'_>,
    parts: &[MarkedToken<'a>],
) -> Result<Segment<'a>, AllocError>
    requires { number_rows (marks_of parts.now) ≡ [] }
    ensures { IfOk result (λ s. views.segment_of s ≡ spec.segment_of (space_names spaces.now) (marks_of parts.now)) }
{
    let offset = constant(alloc, hashes, spaces, parts)?;
    let bytes = segment_bytes(alloc, parts)?;
    Ok(Segment {
        memory: 0,
        offset,
        bytes,
    })
}
