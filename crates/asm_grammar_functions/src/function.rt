//! A function: its name, parameters, marks, local variables and body.

ghost use Rattle.std.specs.Prelude.{◌≡◌, Some, None, IfOk};
ghost use Rattle.asm_lang.specs.Lexemes.{Lexeme as PlainLexeme};
ghost use Rattle.asm_lang.specs.Trees.{FunctionTree as PlainFunction};
ghost use Rattle.asm_lang.specs.Machine.{advance, function_of, State};
ghost use Rattle.asm_laws_height.specs.Peaks.{step_peak};
ghost use Rattle.asm_grammar_nodes.specs.Heights.{counted};
ghost use Rattle.asm_grammar_nodes.specs.Tall.{stmts_tall_view};
ghost use Rattle.asm_grammar_nodes.specs.Views.{lexeme_view};
ghost use Rattle.asm_grammar_decls.specs.Variables.{left_view, locals_reading_view, params_of, variables_of};
ghost use Rattle.asm_grammar_functions.specs.Bodies.{body_of, first_param_step, function_body_view, function_fed_view, function_reading_view, function_step_view, locals_of, marks_step, named_view, open_brace_step, params_step, tall_function_view};
ghost use Rattle.asm_grammar_functions.specs.declared.function.FunctionReading.TheVariants.{Body};

use crate::tall::{TallFunction, leaves};
use asm_grammar_decls::{
    LocalsReading, LocalsStep, Marks, MarksReading, MarksStep, NamesReading, NamesStep, is,
};
use asm_grammar_nodes::{Class, FunctionTree, Height, Lexeme, ParamTree, TallStmts, VariableTree};
use asm_grammar_stmts::{BodyFed, BodyReading};
use sem_words::{List, Text};
use std::alloc::{AllocError, Global};
use std::mem;

/// One or more names.
#[derive(Drop)]
pub struct Names<'a> {
    pub first: Lexeme<'a>,
    pub others: Vec<Lexeme<'a>>,
}

/// A function that is being read: its name, and what else has been read.
pub enum FunctionReading<'a> {
    Name,
    OpenParen(Lexeme<'a>),
    FirstParam(Lexeme<'a>),
    /// With the first parameter.
    Params(Lexeme<'a>, Lexeme<'a>, NamesReading<'a>),
    OpenBrace(Lexeme<'a>, Option<Names<'a>>),
    Marks(Lexeme<'a>, MarksReading<'a>),
    Locals(Lexeme<'a>, List<ParamTree>, LocalsReading<'a>),
    Body(FunctionBody<'a>),
}

/// By hand, so that the end of a function that is being read is one call wherever it is let go.
impl Drop for FunctionReading<'_> {
    fn drop(self) {
        match self {
            FunctionReading::Name => {}
            FunctionReading::OpenParen(_) => {}
            FunctionReading::FirstParam(_) => {}
            FunctionReading::Params(_, _, _) => {}
            FunctionReading::OpenBrace(_, _) => {}
            FunctionReading::Marks(_, _) => {}
            FunctionReading::Locals(_, _, _) => {}
            FunctionReading::Body(_) => {}
        }
    }
}

/// A function whose body is being read: its name, parameters and local variables, and that body.
pub struct FunctionBody<'a> {
    pub name: Lexeme<'a>,
    pub params: List<ParamTree>,
    pub locals: List<VariableTree>,
    pub body: Box<BodyReading>,
}

/// By hand too: a body that is being read has many forms.
impl Drop for FunctionBody<'_> {
    fn drop(self) {
        let FunctionBody {
            name: _,
            params: _,
            locals: _,
            body: _,
        } = self;
    }
}

/// What one token does to a function.
#[derive(Drop)]
pub enum FunctionStep<'a> {
    On(FunctionReading<'a>),
    /// The `}` that ends it was taken.
    Done(TallFunction),
    Stuck,
}

/// What one token did to a function that is read in place.
#[derive(Drop)]
pub enum FunctionFed {
    On,
    /// The `}` that ends it was taken, and its parts were taken out. In a box, so that the answer to each token is small.
    Done(Box<TallFunction>),
    Stuck,
}

impl<'a> FunctionReading<'a> {
    /// The height of the highest node that may end at the last token.
    pub fn peak(&self) -> Height
        ensures { (k : PlainFunction → State) → result.count ≡ counted (step_peak (function_reading_view self.now k)) }
    {
        match self {
            FunctionReading::Body(body) => body.body.peak(),
            _ => Height::none(),
        }
    }

    /// Reads one token. Within a body nothing but the body is moved.
    pub fn feed(&mut self, alloc: Global, token: &Lexeme<'a>) -> Result<FunctionFed, AllocError>
        ensures { IfOk result (λ r. (k : PlainFunction → State) → function_fed_view r self.new k (lexeme_view token.now) ≡ advance (function_reading_view self.old k) (lexeme_view token.now)) }
    {
        match self {
            FunctionReading::Body(body) => body.feed(alloc, token),
            _ => self.move_on(alloc, token),
        }
    }

    /// Reads one token, by a step of the whole.
    fn move_on(&mut self, alloc: Global, token: &Lexeme<'a>) -> Result<FunctionFed, AllocError>
        ensures { IfOk result (λ r. (k : PlainFunction → State) → function_fed_view r self.new k (lexeme_view token.now) ≡ advance (function_reading_view self.old k) (lexeme_view token.now)) }
    {
        match mem::replace(self, FunctionReading::Name).step(alloc, token) {
            Ok(step) => self.put(alloc, step),
            Err(error) => Err(error),
        }
    }

    /// Goes on where a step leads.
    fn put(&mut self, alloc: Global, step: FunctionStep<'a>) -> Result<FunctionFed, AllocError>
        ensures { IfOk result (λ r. (k : PlainFunction → State) (t : PlainLexeme) → function_fed_view r self.new k t ≡ function_step_view step.entry k t) }
    {
        match step {
            FunctionStep::On(next) => {
                *self = next;
                Ok(FunctionFed::On)
            }
            FunctionStep::Done(function) => match Box::new(alloc, function) {
                Ok(function) => Ok(FunctionFed::Done(function)),
                Err(_) => Err(AllocError),
            },
            FunctionStep::Stuck => Ok(FunctionFed::Stuck),
        }
    }

    /// What one token makes of it.
    fn step(self, alloc: Global, token: &Lexeme<'a>) -> Result<FunctionStep<'a>, AllocError>
        ensures { IfOk result (λ r. (k : PlainFunction → State) → function_step_view r k (lexeme_view token.now) ≡ advance (function_reading_view self.entry k) (lexeme_view token.now)) }
    {
        match self {
            FunctionReading::Name => {
                if is(token, Class::Identifier) {
                    Ok(FunctionStep::On(FunctionReading::OpenParen(*token)))
                } else {
                    Ok(FunctionStep::Stuck)
                }
            }
            FunctionReading::OpenParen(name) => {
                if is(token, Class::OpenParen) {
                    Ok(FunctionStep::On(FunctionReading::FirstParam(name)))
                } else {
                    Ok(FunctionStep::Stuck)
                }
            }
            FunctionReading::FirstParam(name) => Ok(first_param(alloc, name, token)),
            FunctionReading::Params(name, first, names) => params(name, first, names, token),
            FunctionReading::OpenBrace(name, params) => open_brace(alloc, name, params, token),
            FunctionReading::Marks(name, marks) => after_brace(alloc, name, marks, token),
            FunctionReading::Locals(name, params, locals) => {
                after_marks(alloc, name, params, locals, token)
            }
            FunctionReading::Body(body) => in_body(alloc, body, token),
        }
    }
}

impl<'a> FunctionBody<'a> {
    /// Reads one token, in place. At the end of the body its parts are taken out.
    fn feed(&mut self, alloc: Global, token: &Lexeme<'a>) -> Result<FunctionFed, AllocError>
        ensures { IfOk result (λ r. (k : PlainFunction → State) → function_fed_view r (Body self.new) k (lexeme_view token.now) ≡ advance (function_body_view self.old k) (lexeme_view token.now)) }
    {
        match self.body.feed(alloc, token)? {
            BodyFed::On => Ok(FunctionFed::On),
            BodyFed::Done(stmts) => self.ended(alloc, stmts),
            BodyFed::Stuck => Ok(FunctionFed::Stuck),
        }
    }

    /// The function with this body, whose parts are taken out. It stands apart, so that a token within a body needs no room for it.
    #[inline(never)]
    fn ended(&mut self, alloc: Global, stmts: TallStmts) -> Result<FunctionFed, AllocError>
        ensures { IfOk result (λ r. (k : PlainFunction → State) (t : PlainLexeme) → function_fed_view r (Body self.new) k t ≡ body_of (lexeme_view self.old.name) (params_of self.old.params) (variables_of self.old.locals) k (stmts_tall_view stmts)) }
    {
        let params = mem::replace(&mut self.params, List::new(alloc));
        let locals = mem::replace(&mut self.locals, List::new(alloc));
        let function = function(alloc, &self.name, params, locals, stmts)?;
        Ok(FunctionFed::Done(Box::new(alloc, function)?))
    }
}

fn first_param<'a>(alloc: Global, name: Lexeme<'a>, token: &Lexeme<'a>) -> FunctionStep<'a>
    ensures { (k : PlainFunction → State) → function_step_view result k (lexeme_view token.now) ≡ advance (first_param_step (lexeme_view name.entry) k) (lexeme_view token.now) }
{
    if is(token, Class::Identifier) {
        let names = NamesReading::After(Vec::new(alloc));
        FunctionStep::On(FunctionReading::Params(name, *token, names))
    } else if is(token, Class::CloseParen) {
        FunctionStep::On(FunctionReading::OpenBrace(name, None))
    } else {
        FunctionStep::Stuck
    }
}

fn params<'a>(
    name: Lexeme<'a>,
    first: Lexeme<'a>,
    names: NamesReading<'a>,
    token: &Lexeme<'a>,
) -> Result<FunctionStep<'a>, AllocError>
    ensures { IfOk result (λ r. (k : PlainFunction → State) → function_step_view r k (lexeme_view token.now) ≡ advance (params_step (lexeme_view name.entry) (lexeme_view first.entry) names.entry k) (lexeme_view token.now)) }
{
    match names.feed(token, Class::CloseParen) {
        Ok(step) => match step {
            NamesStep::On(names) => {
                let reading = FunctionReading::Params(name, first, names);
                Ok(FunctionStep::On(reading))
            }
            NamesStep::Done(others) => {
                let names = Names { first, others };
                let reading = FunctionReading::OpenBrace(name, Some(names));
                Ok(FunctionStep::On(reading))
            }
            NamesStep::Stuck => Ok(FunctionStep::Stuck),
        },
        Err(error) => Err(error),
    }
}

/// The names, the first one last.
#[tactic(auto, using(asm_grammar_decls::proofs::Pushes::pushes))]
fn reversed<'a>(alloc: Global, names: Option<Names<'a>>) -> Result<Vec<Lexeme<'a>>, AllocError>
    ensures { IfOk result (λ r. left_view r.items ≡ named_view names.entry) }
{
    match names {
        None => Ok(Vec::new(alloc)),
        Some(names) => {
            let Names { first, mut others } = names;
            others.reverse();
            others.push(first)?;
            Ok(others)
        }
    }
}

fn open_brace<'a>(
    alloc: Global,
    name: Lexeme<'a>,
    params: Option<Names<'a>>,
    token: &Lexeme<'a>,
) -> Result<FunctionStep<'a>, AllocError>
    ensures { IfOk result (λ r. (k : PlainFunction → State) → function_step_view r k (lexeme_view token.now) ≡ advance (open_brace_step (lexeme_view name.entry) (named_view params.entry) k) (lexeme_view token.now)) }
{
    if is(token, Class::OpenBrace) {
        match reversed(alloc, params) {
            Ok(left) => {
                let done = List::new(alloc);
                let marks = MarksReading::At(Marks { left, done });
                Ok(FunctionStep::On(FunctionReading::Marks(name, marks)))
            }
            Err(error) => Err(error),
        }
    } else {
        Ok(FunctionStep::Stuck)
    }
}

fn after_brace<'a>(
    alloc: Global,
    name: Lexeme<'a>,
    marks: MarksReading<'a>,
    token: &Lexeme<'a>,
) -> Result<FunctionStep<'a>, AllocError>
    ensures { IfOk result (λ r. (k : PlainFunction → State) → function_step_view r k (lexeme_view token.now) ≡ advance (marks_step (lexeme_view name.entry) marks.entry k) (lexeme_view token.now)) }
{
    match marks.feed(alloc, token) {
        Ok(step) => match step {
            MarksStep::On(marks) => Ok(FunctionStep::On(FunctionReading::Marks(name, marks))),
            MarksStep::Before(params) => {
                let locals = LocalsReading::At(List::new(alloc));
                after_marks(alloc, name, params, locals, token)
            }
            MarksStep::Stuck => Ok(FunctionStep::Stuck),
        },
        Err(error) => Err(error),
    }
}

fn after_marks<'a>(
    alloc: Global,
    name: Lexeme<'a>,
    params: List<ParamTree>,
    locals: LocalsReading<'a>,
    token: &Lexeme<'a>,
) -> Result<FunctionStep<'a>, AllocError>
    ensures { IfOk result (λ r. (k : PlainFunction → State) → function_step_view r k (lexeme_view token.now) ≡ advance (locals_reading_view locals.entry (locals_of (lexeme_view name.entry) (params_of params) k)) (lexeme_view token.now)) }
{
    match locals.feed(alloc, token) {
        Ok(step) => match step {
            LocalsStep::On(locals) => {
                let reading = FunctionReading::Locals(name, params, locals);
                Ok(FunctionStep::On(reading))
            }
            LocalsStep::Before(locals) => match Box::new(alloc, BodyReading::start(alloc)) {
                Ok(body) => {
                    let body = FunctionBody {
                        name,
                        params,
                        locals,
                        body,
                    };
                    in_body(alloc, body, token)
                }
                Err(_) => Err(AllocError),
            },
            LocalsStep::Stuck => Ok(FunctionStep::Stuck),
        },
        Err(error) => Err(error),
    }
}

fn in_body<'a>(
    alloc: Global,
    body: FunctionBody<'a>,
    token: &Lexeme<'a>,
) -> Result<FunctionStep<'a>, AllocError>
    ensures { IfOk result (λ r. (k : PlainFunction → State) → function_step_view r k (lexeme_view token.now) ≡ advance (function_body_view body.entry k) (lexeme_view token.now)) }
{
    let mut body = body;
    match body.feed(alloc, token) {
        Ok(fed) => match fed {
            FunctionFed::On => Ok(FunctionStep::On(FunctionReading::Body(body))),
            FunctionFed::Done(function) => Ok(FunctionStep::Done(Box::into_inner(function))),
            FunctionFed::Stuck => Ok(FunctionStep::Stuck),
        },
        Err(error) => Err(error),
    }
}

fn function(
    alloc: Global,
    name: &Lexeme<'_>,
    params: List<ParamTree>,
    locals: List<VariableTree>,
    body: TallStmts,
) -> Result<TallFunction, AllocError>
    ensures { IfOk result (λ r. tall_function_view r ≡ function_of (lexeme_view name.now) (params_of params) (variables_of locals) (stmts_tall_view body)) }
{
    let parts = leaves(params.len()).or(leaves(locals.len()));
    let height = parts.or(body.height()).above();
    let tree = FunctionTree {
        at: name.at,
        name: Text::from_bytes(alloc, name.text)?,
        params,
        locals,
        body: body.into_trees(),
    };
    Ok(TallFunction { tree, height })
}
