//! Reading a module outside its functions, after its directive and before its end.

ghost use Rattle.std.specs.Prelude.{◌≡◌, IfOk};
ghost use Rattle.asm_lang.specs.Machine.{advance};
ghost use Rattle.asm_grammar_nodes.specs.Views.{lexeme_view};
ghost use Rattle.asm_grammar_modules.specs.Readings.{next_view, outside_view};
ghost use Rattle.asm_grammar_modules.specs.declared.outside.Outside.TheVariants as places;

use crate::parts::Parts;
use asm_grammar_nodes::{ExportsTree, Lexeme};
use asm_grammar_outside::{
    ExportPlace, ExportStep, FunctionsStep, GlobalPlace, GlobalStep, TablePlace, TableStep,
    export_step, functions_step, global_step, table_step,
};
use std::alloc::{AllocError, Global};

/// What must come or may come next outside functions.
#[derive(Drop)]
pub enum Outside<'a> {
    Global(GlobalPlace<'a>),
    /// After a function: another one, the tables or the exports.
    Functions,
    Table(TablePlace<'a>),
    Export(ExportPlace<'a>),
}

/// What one token does outside functions.
#[derive(Drop)]
pub enum Next<'a> {
    On(Outside<'a>),
    /// The `function` of a function was taken.
    Function,
    /// The exports have ended.
    Done(ExportsTree),
    Stuck,
}

/// Reads one token.
pub fn step<'a>(
    alloc: Global,
    parts: &mut Parts,
    place: Outside<'a>,
    token: &Lexeme<'a>,
) -> Result<Next<'a>, AllocError>
    ensures { IfOk result (λ r. next_view r parts.new (lexeme_view token.now) ≡ advance (outside_view place.entry parts.old) (lexeme_view token.now)) }
{
    match place {
        Outside::Global(place) => global(alloc, parts, place, token),
        Outside::Functions => Ok(between(alloc, parts, token)),
        Outside::Table(place) => table(alloc, parts, place, token),
        Outside::Export(place) => export(alloc, parts, place, token),
    }
}

/// Among the global variables. What comes after them begins with no function and no table.
fn global<'a>(
    alloc: Global,
    parts: &mut Parts,
    place: GlobalPlace<'a>,
    token: &Lexeme<'a>,
) -> Result<Next<'a>, AllocError>
    ensures { IfOk result (λ r. next_view r parts.new (lexeme_view token.now) ≡ advance (outside_view (places.Global place.entry) parts.old) (lexeme_view token.now)) }
{
    match global_step(alloc, &mut parts.variables, place, token) {
        Ok(step) => match step {
            GlobalStep::On(place) => Ok(Next::On(Outside::Global(place))),
            GlobalStep::Function => {
                parts.end_globals(alloc);
                Ok(Next::Function)
            }
            GlobalStep::Table(name) => {
                parts.end_globals(alloc);
                Ok(Next::On(Outside::Table(TablePlace::FirstMember(name))))
            }
            GlobalStep::Export => {
                parts.end_globals(alloc);
                Ok(Next::On(Outside::Export(ExportPlace::First)))
            }
            GlobalStep::Stuck => Ok(Next::Stuck),
        },
        Err(error) => Err(error),
    }
}

/// After a function. What comes after the functions begins with no table.
fn between<'a>(alloc: Global, parts: &mut Parts, token: &Lexeme<'a>) -> Next<'a>
    ensures { next_view result parts.new (lexeme_view token.now) ≡ advance (outside_view places.Functions parts.old) (lexeme_view token.now) }
{
    match functions_step(token) {
        FunctionsStep::Table => {
            parts.end_functions(alloc);
            Next::On(Outside::Table(TablePlace::Name))
        }
        FunctionsStep::Function => Next::Function,
        FunctionsStep::Export => {
            parts.end_functions(alloc);
            Next::On(Outside::Export(ExportPlace::First))
        }
        FunctionsStep::Stuck => Next::Stuck,
    }
}

/// Among the tables.
fn table<'a>(
    alloc: Global,
    parts: &mut Parts,
    place: TablePlace<'a>,
    token: &Lexeme<'a>,
) -> Result<Next<'a>, AllocError>
    ensures { IfOk result (λ r. next_view r parts.new (lexeme_view token.now) ≡ advance (outside_view (places.Table place.entry) parts.old) (lexeme_view token.now)) }
{
    match table_step(alloc, &mut parts.tables, place, token) {
        Ok(step) => match step {
            TableStep::On(place) => Ok(Next::On(Outside::Table(place))),
            TableStep::Export => Ok(Next::On(Outside::Export(ExportPlace::First))),
            TableStep::Stuck => Ok(Next::Stuck),
        },
        Err(error) => Err(error),
    }
}

/// Among the exports.
fn export<'a>(
    alloc: Global,
    parts: &mut Parts,
    place: ExportPlace<'a>,
    token: &Lexeme<'a>,
) -> Result<Next<'a>, AllocError>
    ensures { IfOk result (λ r. next_view r parts.new (lexeme_view token.now) ≡ advance (outside_view (places.Export place.entry) parts.old) (lexeme_view token.now)) }
{
    match export_step(alloc, &mut parts.exports, place, token) {
        Ok(step) => match step {
            ExportStep::On(place) => Ok(Next::On(Outside::Export(place))),
            ExportStep::Done(exports) => Ok(Next::Done(exports)),
            ExportStep::Stuck => Ok(Next::Stuck),
        },
        Err(error) => Err(error),
    }
}
