//! Types of globals, limits, and what is imported and exported.

ghost use Rattle.std.specs.Prelude.{◌≡◌, [], Option, option_map};
ghost use Rattle.wat_lang.specs.Modules as spec;
ghost use Rattle.wat_lang.specs.Rows.{number_rows};
ghost use Rattle.wat_read_names.specs.Bound.{space_names};
ghost use Rattle.wat_read_tokens.specs.Marks.{marks_of};
ghost use Rattle.wat_grammar.specs.Views.{mark_of};
ghost use Rattle.wat_read_fields.specs.Kinds.{exported_as, kind_of_space};

use wasm_tree::{ExportKind, GlobalType, ImportKind, Limits, ValType};
use wat_grammar::Mark;
use wat_lang::Space;
use wat_marks::MarkedToken;
use wat_read_bodies::{first_used, natural_by, optional_by};
use wat_read_names::{Spaces, described};
use wat_read_tokens::{Wanted, first, value_type};

/// The limits of a table or a memory.
pub fn limits_in(parts: &[MarkedToken<'_>]) -> Limits
    requires { number_rows (marks_of parts.now) ≡ [] }
    ensures { result ≡ spec.limits_in (marks_of parts.now) }
{
    Limits {
        min: natural_by(Wanted::Minimum, parts),
        max: optional_by(Wanted::Maximum, parts),
    }
}

fn global_kind(parts: &[MarkedToken<'_>]) -> ValType
    ensures { result ≡ spec.value_type_in spec.is_global_type (marks_of parts.now) }
{
    match first(parts, Wanted::GlobalType) {
        Some(token) => value_type(token),
        None => ValType::I32,
    }
}

/// The type of a global.
pub fn global_type_in(parts: &[MarkedToken<'_>]) -> GlobalType
    ensures { result ≡ spec.global_type_in (marks_of parts.now) }
{
    GlobalType {
        kind: global_kind(parts),
        mutable: first(parts, Wanted::Mutable).is_some(),
    }
}

/// The number of the type that a function names.
pub fn function_type_in(spaces: &Spaces<'_>, parts: &[MarkedToken<'_>]) -> u32
    requires { number_rows (marks_of parts.now) ≡ [] }
    ensures { result ≡ spec.function_type_in (space_names spaces.now) (marks_of parts.now) }
{
    match first(parts, Wanted::TypeUse) {
        Some(token) => spaces.types.number(token),
        None => 0,
    }
}

fn kind_of_space(spaces: &Spaces<'_>, space: Space, parts: &[MarkedToken<'_>]) -> ImportKind
    requires { number_rows (marks_of parts.now) ≡ [] }
    ensures { result ≡ kind_of_space (space_names spaces.now) (marks_of parts.now) space }
{
    match space {
        Space::Table => ImportKind::Table(limits_in(parts)),
        Space::Memory => ImportKind::Memory(limits_in(parts)),
        Space::Global => ImportKind::Global(global_type_in(parts)),
        _ => ImportKind::Func(function_type_in(spaces, parts)),
    }
}

/// What is imported.
pub fn import_kind_in(spaces: &Spaces<'_>, parts: &[MarkedToken<'_>]) -> ImportKind
    requires { number_rows (marks_of parts.now) ≡ [] }
    ensures { result ≡ spec.import_kind_in (space_names spaces.now) (marks_of parts.now) }
{
    match described(parts) {
        Some(entry) => kind_of_space(spaces, entry.space, parts),
        None => ImportKind::Func(0),
    }
}

/// What a token says is exported, with the tokens behind it.
fn exported_at(spaces: &Spaces<'_>, mark: Mark, behind: &[MarkedToken<'_>]) -> Option<ExportKind>
    requires { number_rows (marks_of behind.now) ≡ [] }
    ensures { result ≡ exported_as (space_names spaces.now) (marks_of behind.now) (mark_of mark) }
{
    match mark {
        Mark::Exported(Space::Func) => Some(ExportKind::Func(first_used(
            &spaces.functions,
            Space::Func,
            behind,
        ))),
        Mark::Exported(Space::Table) => Some(ExportKind::Table(first_used(
            &spaces.tables,
            Space::Table,
            behind,
        ))),
        Mark::Exported(Space::Memory) => Some(ExportKind::Memory(first_used(
            &spaces.memories,
            Space::Memory,
            behind,
        ))),
        Mark::Exported(Space::Global) => Some(ExportKind::Global(first_used(
            &spaces.globals,
            Space::Global,
            behind,
        ))),
        _ => None,
    }
}

/// What is exported.
pub fn export_kind_in(spaces: &Spaces<'_>, parts: &[MarkedToken<'_>]) -> ExportKind
    requires { number_rows (marks_of parts.now) ≡ [] }
    ensures { result ≡ spec.export_kind_in (space_names spaces.now) (marks_of parts.now) }
{
    for n in 0..parts.len() {
        if let Some(kind) = exported_at(spaces, parts[n].mark, &parts[n + 1..]) {
            return kind;
        }
    }
    ExportKind::Func(0)
}
