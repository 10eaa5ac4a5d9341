//! Reading the global variables of a module.

ghost use Rattle.std.specs.Prelude.{◌≡◌, [], ◌∷◌, ◌++◌, if◌then◌else◌, IfOk, List as Items, OnOk};
ghost use Rattle.asm_lang.specs.Lexemes.{Lexeme as PlainLexeme};
ghost use Rattle.asm_lang.specs.Trees.{Heading as PlainHeading, VariableTree as PlainVariable};
ghost use Rattle.asm_lang.specs.Machine.{advance, at_globals, at_value, ends, feed, globals_by, in_globals, stuck, variable_of};
ghost use Rattle.asm_grammar_nodes.specs.Views.{init_view, lexeme_view};
ghost use Rattle.asm_grammar_decls.specs.Variables.{variables_of};
ghost use Rattle.asm_grammar_outside.specs.Outside.{global_step_view, global_view, initial_global};

use asm_grammar_decls::{Ending, InitReading, InitStep, end_before, is, with_variable};
use asm_grammar_nodes::{Class, InitTree, Lexeme, VariableTree};
use sem_words::List;
use std::alloc::{AllocError, Global};
use std::mem;

/// What must come or may come next among the global variables.
#[derive(Clone, Copy)]
pub enum GlobalPlace<'a> {
    /// The `;` of the directive, which may be missing.
    Ends,
    /// A declaration or a function, or the exports.
    At,
    /// The name after `var`.
    Name,
    Equals(Lexeme<'a>),
    /// The value, or the `[` of a table.
    Value(Lexeme<'a>),
    /// The name after a comma.
    NextName,
    NextEquals(Lexeme<'a>),
    Init(Lexeme<'a>, InitReading<'a>),
    /// After a variable.
    After,
}

/// What one token does among the global variables.
#[derive(Clone, Copy)]
pub enum GlobalStep<'a> {
    On(GlobalPlace<'a>),
    /// The `function` of the first function was taken.
    Function,
    /// The `[` of a table of this name was taken, before all functions.
    Table(Lexeme<'a>),
    /// The `return` was taken.
    Export,
    Stuck,
}

/// A declaration, a function or the exports.
fn at_globals<'a>(token: &Lexeme<'a>) -> GlobalStep<'a>
    ensures { (h : PlainHeading) (gs : Items PlainVariable) → global_step_view result h gs (lexeme_view token.now) ≡ globals_by (lexeme_view token.now).class (lexeme_view token.now) h gs }
{
    match token.class {
        Class::Var => GlobalStep::On(GlobalPlace::Name),
        Class::Function => GlobalStep::Function,
        Class::Return => GlobalStep::Export,
        _ => GlobalStep::Stuck,
    }
}

/// After the directive.
fn after_directive<'a>(token: &Lexeme<'a>) -> GlobalStep<'a>
    ensures { (h : PlainHeading) (gs : Items PlainVariable) → global_step_view result h gs (lexeme_view token.now) ≡ feed (ends (at_globals h gs)) (lexeme_view token.now) }
{
    match end_before(token) {
        Ending::Written => GlobalStep::On(GlobalPlace::At),
        Ending::Missing => at_globals(token),
        Ending::Wrong => GlobalStep::Stuck,
    }
}

fn after_global<'a>(token: &Lexeme<'a>) -> GlobalStep<'a>
    ensures { (h : PlainHeading) (gs : Items PlainVariable) → global_step_view result h gs (lexeme_view token.now) ≡ feed (in_globals h gs) (lexeme_view token.now) }
{
    match token.class {
        Class::Comma => GlobalStep::On(GlobalPlace::NextName),
        _ => after_directive(token),
    }
}

/// Puts one variable more at the end.
fn add(
    alloc: Global,
    variables: &mut List<VariableTree>,
    name: &Lexeme<'_>,
    init: InitTree,
) -> Result<(), AllocError>
    ensures { OnOk result (variables_of variables.new ≡ variables_of variables.old ++ variable_of (lexeme_view name.now) (init_view init) ∷ []) }
{
    let before = mem::replace(variables, List::new(alloc));
    *variables = with_variable(alloc, before, name, init)?;
    Ok(())
}

fn initial_value<'a>(
    alloc: Global,
    variables: &mut List<VariableTree>,
    name: Lexeme<'a>,
    init: InitReading<'a>,
    token: &Lexeme<'a>,
) -> Result<GlobalStep<'a>, AllocError>
    ensures { IfOk result (λ r. (h : PlainHeading) → global_step_view r h (variables_of variables.new) (lexeme_view token.now) ≡ advance (initial_global h (variables_of variables.old) name.entry init.entry) (lexeme_view token.now)) }
{
    match init.feed(alloc, token) {
        Ok(step) => match step {
            InitStep::On(init) => Ok(GlobalStep::On(GlobalPlace::Init(name, init))),
            InitStep::Taken(value) => match add(alloc, variables, &name, value) {
                Ok(()) => Ok(GlobalStep::On(GlobalPlace::After)),
                Err(error) => Err(error),
            },
            InitStep::Before(value) => match add(alloc, variables, &name, value) {
                Ok(()) => Ok(after_global(token)),
                Err(error) => Err(error),
            },
            InitStep::Stuck => Ok(GlobalStep::Stuck),
        },
        Err(error) => Err(error),
    }
}

/// After a name and its `=`, where `var` stood before the name.
fn value<'a>(
    alloc: Global,
    variables: &mut List<VariableTree>,
    name: Lexeme<'a>,
    token: &Lexeme<'a>,
) -> Result<GlobalStep<'a>, AllocError>
    ensures { IfOk result (λ r. (h : PlainHeading) → global_step_view r h (variables_of variables.new) (lexeme_view token.now) ≡ feed (at_value h (variables_of variables.old) (lexeme_view name.entry)) (lexeme_view token.now)) }
{
    match token.class {
        Class::OpenBracket => Ok(GlobalStep::Table(name)),
        _ => initial_value(alloc, variables, name, InitReading::Any, token),
    }
}

fn on_if<'a>(holds: bool, place: GlobalPlace<'a>) -> GlobalStep<'a>
    ensures { (h : PlainHeading) (gs : Items PlainVariable) (t : PlainLexeme) → global_step_view result h gs t ≡ (if holds then global_view place.entry h gs else stuck t) }
{
    if holds {
        GlobalStep::On(place)
    } else {
        GlobalStep::Stuck
    }
}

/// Reads one token among the global variables.
pub fn global_step<'a>(
    alloc: Global,
    variables: &mut List<VariableTree>,
    place: GlobalPlace<'a>,
    token: &Lexeme<'a>,
) -> Result<GlobalStep<'a>, AllocError>
    ensures { IfOk result (λ r. (h : PlainHeading) → global_step_view r h (variables_of variables.new) (lexeme_view token.now) ≡ advance (global_view place.entry h (variables_of variables.old)) (lexeme_view token.now)) }
{
    match place {
        GlobalPlace::Ends => Ok(after_directive(token)),
        GlobalPlace::At => Ok(at_globals(token)),
        GlobalPlace::Name => Ok(on_if(is(token, Class::Identifier), GlobalPlace::Equals(*token))),
        GlobalPlace::Equals(name) => {
            Ok(on_if(is(token, Class::Equals), GlobalPlace::Value(name)))
        }
        GlobalPlace::Value(name) => value(alloc, variables, name, token),
        GlobalPlace::NextName => Ok(on_if(
            is(token, Class::Identifier),
            GlobalPlace::NextEquals(*token),
        )),
        GlobalPlace::NextEquals(name) => Ok(on_if(
            is(token, Class::Equals),
            GlobalPlace::Init(name, InitReading::Any),
        )),
        GlobalPlace::Init(name, init) => initial_value(alloc, variables, name, init, token),
        GlobalPlace::After => Ok(after_global(token)),
    }
}
