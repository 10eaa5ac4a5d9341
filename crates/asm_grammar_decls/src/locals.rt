//! The local variables of a function; and a variable at the end of others.

ghost use Rattle.std.specs.Prelude.{◌≡◌, ◌∷◌, [], ◌++◌, List as Items, IfOk};
ghost use Rattle.asm_lang.specs.Trees.{VariableTree as PlainVariable};
ghost use Rattle.asm_lang.specs.Machine.{advance, at_locals, feed, in_locals, State, variable_of};
ghost use Rattle.asm_grammar_nodes.specs.Views.{init_view, lexeme_view};
ghost use Rattle.asm_grammar_decls.specs.Variables.{initial_local, locals_reading_view, locals_step_view, variables_of};

use crate::init::{InitReading, InitStep};
use crate::want::{Ending, end_before, is};
use asm_grammar_nodes::{Class, InitTree, Lexeme, VariableTree};
use sem_words::{List, Text};
use std::alloc::{AllocError, Global};

/// Local variables that are being read, with those so far.
#[derive(Drop)]
pub enum LocalsReading<'a> {
    At(List<VariableTree>),
    Name(List<VariableTree>),
    Equals(List<VariableTree>, Lexeme<'a>),
    Init(List<VariableTree>, Lexeme<'a>, InitReading<'a>),
    /// After a variable.
    After(List<VariableTree>),
}

/// What one token does to local variables.
#[derive(Drop)]
pub enum LocalsStep<'a> {
    On(LocalsReading<'a>),
    /// They had ended before the token, which isn't taken.
    Before(List<VariableTree>),
    Stuck,
}

/// The variables with one more at their end.
#[tactic(auto, using(crate::proofs::Pushes::pushes))]
pub fn with_variable(
    alloc: Global,
    variables: List<VariableTree>,
    name: &Lexeme<'_>,
    init: InitTree,
) -> Result<List<VariableTree>, AllocError>
    ensures { IfOk result (λ r. variables_of r ≡ variables_of variables ++ variable_of (lexeme_view name.now) (init_view init) ∷ []) }
{
    let mut variables = variables;
    let variable = VariableTree {
        at: name.at,
        name: Text::from_bytes(alloc, name.text)?,
        init,
    };
    match variables.push(variable) {
        Ok(()) => Ok(variables),
        Err(_) => Err(AllocError),
    }
}

impl<'a> LocalsReading<'a> {
    /// Reads one token.
    pub fn feed(self, alloc: Global, token: &Lexeme<'a>) -> Result<LocalsStep<'a>, AllocError>
        ensures { IfOk result (λ r. (k : Items PlainVariable → State) → locals_step_view r k (lexeme_view token.now) ≡ advance (locals_reading_view self.entry k) (lexeme_view token.now)) }
    {
        match self {
            LocalsReading::At(locals) => Ok(at_locals(locals, token)),
            LocalsReading::Name(locals) => {
                if is(token, Class::Identifier) {
                    Ok(LocalsStep::On(LocalsReading::Equals(locals, *token)))
                } else {
                    Ok(LocalsStep::Stuck)
                }
            }
            LocalsReading::Equals(locals, name) => {
                if is(token, Class::Equals) {
                    let reading = LocalsReading::Init(locals, name, InitReading::Literal);
                    Ok(LocalsStep::On(reading))
                } else {
                    Ok(LocalsStep::Stuck)
                }
            }
            LocalsReading::Init(locals, name, init) => {
                initial_value(alloc, locals, name, init, token)
            }
            LocalsReading::After(locals) => Ok(after_local(locals, token)),
        }
    }
}

fn at_locals<'a>(locals: List<VariableTree>, token: &Lexeme<'a>) -> LocalsStep<'a>
    ensures { (k : Items PlainVariable → State) → locals_step_view result k (lexeme_view token.now) ≡ feed (at_locals (variables_of locals) k) (lexeme_view token.now) }
{
    match token.class {
        Class::Var => LocalsStep::On(LocalsReading::Name(locals)),
        _ => LocalsStep::Before(locals),
    }
}

fn after_local<'a>(locals: List<VariableTree>, token: &Lexeme<'a>) -> LocalsStep<'a>
    ensures { (k : Items PlainVariable → State) → locals_step_view result k (lexeme_view token.now) ≡ feed (in_locals (variables_of locals) k) (lexeme_view token.now) }
{
    match token.class {
        Class::Comma => LocalsStep::On(LocalsReading::Name(locals)),
        _ => match end_before(token) {
            Ending::Written => LocalsStep::On(LocalsReading::At(locals)),
            Ending::Missing => at_locals(locals, token),
            Ending::Wrong => LocalsStep::Stuck,
        },
    }
}

fn initial_value<'a>(
    alloc: Global,
    locals: List<VariableTree>,
    name: Lexeme<'a>,
    init: InitReading<'a>,
    token: &Lexeme<'a>,
) -> Result<LocalsStep<'a>, AllocError>
    ensures { IfOk result (λ r. (k : Items PlainVariable → State) → locals_step_view r k (lexeme_view token.now) ≡ advance (initial_local (variables_of locals) name.entry init.entry k) (lexeme_view token.now)) }
{
    match init.feed(alloc, token)? {
        InitStep::On(init) => Ok(LocalsStep::On(LocalsReading::Init(locals, name, init))),
        InitStep::Taken(value) => {
            let locals = with_variable(alloc, locals, &name, value)?;
            Ok(LocalsStep::On(LocalsReading::After(locals)))
        }
        InitStep::Before(value) => {
            let locals = with_variable(alloc, locals, &name, value)?;
            Ok(after_local(locals, token))
        }
        InitStep::Stuck => Ok(LocalsStep::Stuck),
    }
}
