//! Reading the exports of a module.

ghost use Rattle.std.specs.Prelude.{◌≡◌, ◌∷◌, [], ◌++◌, IfOk, OnOk, List as Items};
ghost use Rattle.asm_lang.specs.Trees.{ExportTree as PlainExport, FunctionTree as PlainFunction, Heading as PlainHeading, TableTree as PlainTable, VariableTree as PlainVariable};
ghost use Rattle.asm_lang.specs.Machine.{advance, at_export, at_exports, export_of, feed, in_exports, Step};
ghost use Rattle.asm_grammar_nodes.specs.Views.{lexeme_view};
ghost use Rattle.asm_grammar_outside.specs.declared.exports.ExportPlace.TheVariants as places;
ghost use Rattle.asm_grammar_outside.specs.Outside.{export_place_view, export_step_view, exports_of, exports_place_view, exports_step_view};

use asm_grammar_decls::{is, is_word};
use asm_grammar_nodes::{Class, ExportTree, ExportsTree, Lexeme};
use sem_words::{List, Text};
use std::alloc::{AllocError, Global};
use std::mem;

/// What must come or may come next among the exports between braces.
#[derive(Clone, Copy)]
pub enum ExportsPlace<'a> {
    /// An export or the `}`.
    At,
    Colon(Lexeme<'a>),
    Name(Lexeme<'a>),
    /// After an export.
    After,
}

/// What one token does to exports between braces.
#[derive(Clone, Copy)]
pub enum ExportsStep<'a> {
    On(ExportsPlace<'a>),
    /// The `}` was taken.
    Done,
    Stuck,
}

/// What must come or may come next of the exports.
#[derive(Clone, Copy)]
pub enum ExportPlace<'a> {
    /// What is exported, right after the `return`.
    First,
    Exports(ExportsPlace<'a>),
}

/// What one token does to the exports.
#[derive(Drop)]
pub enum ExportStep<'a> {
    On(ExportPlace<'a>),
    Done(ExportsTree),
    Stuck,
}

/// Puts one export more at the end.
#[tactic(auto, using(crate::proofs::Pushes::exports))]
fn add(
    alloc: Global,
    exports: &mut List<ExportTree>,
    key: &Lexeme<'_>,
    function: &Lexeme<'_>,
) -> Result<(), AllocError>
    ensures { OnOk result (exports_of exports.new ≡ exports_of exports.old ++ export_of (lexeme_view key.now) (lexeme_view function.now) ∷ []) }
{
    let export = ExportTree {
        at: key.at,
        key: Text::from_bytes(alloc, key.text)?,
        function: Text::from_bytes(alloc, function.text)?,
    };
    match exports.push(export) {
        Ok(()) => Ok(()),
        Err(_) => Err(AllocError),
    }
}

/// An export or the `}`.
fn at_exports<'a>(token: &Lexeme<'a>) -> ExportsStep<'a>
    ensures { (es : Items PlainExport) (k : Items PlainExport → Step) → exports_step_view result es k (lexeme_view token.now) ≡ feed (at_exports es k) (lexeme_view token.now) }
{
    if is_word(token.class) {
        ExportsStep::On(ExportsPlace::Colon(*token))
    } else if is(token, Class::CloseBrace) {
        ExportsStep::Done
    } else {
        ExportsStep::Stuck
    }
}

fn after_export<'a>(token: &Lexeme<'a>) -> ExportsStep<'a>
    ensures { (es : Items PlainExport) (k : Items PlainExport → Step) → exports_step_view result es k (lexeme_view token.now) ≡ feed (in_exports es k) (lexeme_view token.now) }
{
    match token.class {
        Class::Comma => ExportsStep::On(ExportsPlace::At),
        Class::CloseBrace => ExportsStep::Done,
        _ => ExportsStep::Stuck,
    }
}

/// Reads one token among exports between braces.
fn in_exports<'a>(
    alloc: Global,
    exports: &mut List<ExportTree>,
    place: ExportsPlace<'a>,
    token: &Lexeme<'a>,
) -> Result<ExportsStep<'a>, AllocError>
    ensures { IfOk result (λ r. (k : Items PlainExport → Step) → exports_step_view r (exports_of exports.new) k (lexeme_view token.now) ≡ advance (exports_place_view place.entry (exports_of exports.old) k) (lexeme_view token.now)) }
{
    match place {
        ExportsPlace::At => Ok(at_exports(token)),
        ExportsPlace::Colon(key) => {
            if is(token, Class::Colon) {
                Ok(ExportsStep::On(ExportsPlace::Name(key)))
            } else {
                Ok(ExportsStep::Stuck)
            }
        }
        ExportsPlace::Name(key) => {
            if is(token, Class::Identifier) {
                add(alloc, exports, &key, token)?;
                Ok(ExportsStep::On(ExportsPlace::After))
            } else {
                Ok(ExportsStep::Stuck)
            }
        }
        ExportsPlace::After => Ok(after_export(token)),
    }
}

/// What is exported, right after the `return`. Exports between braces begin with none.
fn first_export<'a>(
    alloc: Global,
    exports: &mut List<ExportTree>,
    token: &Lexeme<'a>,
) -> Result<ExportStep<'a>, AllocError>
    ensures { IfOk result (λ r. (h : PlainHeading) (gs : Items PlainVariable) (fs : Items PlainFunction) (ts : Items PlainTable) → export_step_view r h gs fs ts (exports_of exports.new) (lexeme_view token.now) ≡ feed (at_export h gs fs ts) (lexeme_view token.now)) }
{
    if token.line {
        return Ok(ExportStep::Stuck);
    }
    match token.class {
        Class::Identifier => {
            let name = Text::from_bytes(alloc, token.text)?;
            Ok(ExportStep::Done(ExportsTree::One(token.at, name)))
        }
        Class::OpenBrace => {
            *exports = List::new(alloc);
            Ok(ExportStep::On(ExportPlace::Exports(ExportsPlace::At)))
        }
        _ => Ok(ExportStep::Stuck),
    }
}

fn more_exports<'a>(
    alloc: Global,
    exports: &mut List<ExportTree>,
    place: ExportsPlace<'a>,
    token: &Lexeme<'a>,
) -> Result<ExportStep<'a>, AllocError>
    ensures { IfOk result (λ r. (h : PlainHeading) (gs : Items PlainVariable) (fs : Items PlainFunction) (ts : Items PlainTable) → export_step_view r h gs fs ts (exports_of exports.new) (lexeme_view token.now) ≡ advance (export_place_view (places.Exports place.entry) h gs fs ts (exports_of exports.old)) (lexeme_view token.now)) }
{
    match in_exports(alloc, exports, place, token)? {
        ExportsStep::On(place) => Ok(ExportStep::On(ExportPlace::Exports(place))),
        ExportsStep::Done => {
            let all = mem::replace(exports, List::new(alloc));
            Ok(ExportStep::Done(ExportsTree::Many(all)))
        }
        ExportsStep::Stuck => Ok(ExportStep::Stuck),
    }
}

/// Reads one token of the exports.
pub fn export_step<'a>(
    alloc: Global,
    exports: &mut List<ExportTree>,
    place: ExportPlace<'a>,
    token: &Lexeme<'a>,
) -> Result<ExportStep<'a>, AllocError>
    ensures { IfOk result (λ r. (h : PlainHeading) (gs : Items PlainVariable) (fs : Items PlainFunction) (ts : Items PlainTable) → export_step_view r h gs fs ts (exports_of exports.new) (lexeme_view token.now) ≡ advance (export_place_view place.entry h gs fs ts (exports_of exports.old)) (lexeme_view token.now)) }
{
    match place {
        ExportPlace::First => first_export(alloc, exports, token),
        ExportPlace::Exports(place) => more_exports(alloc, exports, place, token),
    }
}
