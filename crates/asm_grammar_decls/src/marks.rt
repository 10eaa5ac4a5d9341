//! The marks that say which parameters of a function are ints, and which doubles.

ghost use Rattle.std.specs.Prelude.{◌≡◌, ◌∷◌, [], ◌++◌, if◌then◌else◌, List as Items, IfOk};
ghost use Rattle.asm_lang.specs.Lexemes.{Lexeme as PlainLexeme};
ghost use Rattle.asm_lang.specs.Trees.{ParamTree as PlainParam};
ghost use Rattle.asm_lang.specs.Machine.{advance, at_marks, ends, feed, goes, State, stuck};
ghost use Rattle.asm_grammar_nodes.specs.Views.{lexeme_view};
ghost use Rattle.asm_grammar_decls.specs.Begun.{begun_mark};
ghost use Rattle.asm_grammar_decls.specs.Variables.{in_mark, left_view, mark_of, mark_view, marks_reading_view, marks_step_view, params_of};

use crate::want::{Ending, end_before, is, is_named, is_zero};
use asm_grammar_nodes::{Class, Lexeme, ParamTree};
use sem_words::{JsOp, List, Text};
use std::alloc::{AllocError, Global};

/// The parameters that have no mark yet, the next one last, and those that have one.
#[derive(Drop)]
pub struct Marks<'a> {
    pub left: Vec<Lexeme<'a>>,
    pub done: List<ParamTree>,
}

/// What must come in a mark: `p = p | 0` or `p = + p`.
#[derive(Clone, Copy)]
pub enum MarkPlace {
    Equals,
    Value,
    Or,
    Zero,
    Double,
}

/// Marks that are being read.
#[derive(Drop)]
pub enum MarksReading<'a> {
    At(Marks<'a>),
    /// In the mark of this parameter.
    In(Marks<'a>, Lexeme<'a>, MarkPlace),
    /// After a mark.
    After(Marks<'a>),
}

/// What one token does to marks.
#[derive(Drop)]
pub enum MarksStep<'a> {
    On(MarksReading<'a>),
    /// All parameters had their marks before the token, which isn't taken.
    Before(List<ParamTree>),
    Stuck,
}

impl<'a> MarksReading<'a> {
    /// Reads one token.
    pub fn feed(self, alloc: Global, token: &Lexeme<'a>) -> Result<MarksStep<'a>, AllocError>
        ensures { IfOk result (λ r. (k : Items PlainParam → State) → marks_step_view r k (lexeme_view token.now) ≡ advance (marks_reading_view self.entry k) (lexeme_view token.now)) }
    {
        match self {
            MarksReading::At(marks) => Ok(at_mark(marks, token)),
            MarksReading::In(marks, p, place) => in_mark(alloc, marks, p, place, token),
            MarksReading::After(marks) => match end_before(token) {
                Ending::Written => Ok(MarksStep::On(MarksReading::At(marks))),
                Ending::Missing => Ok(at_mark(marks, token)),
                Ending::Wrong => Ok(MarksStep::Stuck),
            },
        }
    }
}

/// Where a mark may begin.
fn at_mark<'a>(marks: Marks<'a>, token: &Lexeme<'a>) -> MarksStep<'a>
    ensures { (k : Items PlainParam → State) → marks_step_view result k (lexeme_view token.now) ≡ feed (at_marks (left_view marks.entry.left.items) (params_of marks.entry.done) k) (lexeme_view token.now) }
{
    let Marks { mut left, done } = marks;
    let next = left.pop();
    begun(next, left, done, token)
}

/// Where the mark of this parameter must begin, or all parameters have theirs.
fn begun<'a>(
    next: Option<Lexeme<'a>>,
    left: Vec<Lexeme<'a>>,
    done: List<ParamTree>,
    token: &Lexeme<'a>,
) -> MarksStep<'a>
    ensures { (k : Items PlainParam → State) → marks_step_view result k (lexeme_view token.now) ≡ begun_mark next.entry (left_view left.entry.items) (params_of done) k (lexeme_view token.now) }
{
    match next {
        None => MarksStep::Before(done),
        Some(p) => {
            let holds = is_named(token, &p);
            on_if(holds, Marks { left, done }, p, MarkPlace::Equals)
        }
    }
}

fn on_if<'a>(holds: bool, marks: Marks<'a>, p: Lexeme<'a>, place: MarkPlace) -> MarksStep<'a>
    ensures { (k : Items PlainParam → State) (t : PlainLexeme) → marks_step_view result k t ≡ (if holds then in_mark place (lexeme_view p.entry) (left_view marks.entry.left.items) (params_of marks.entry.done) k else stuck t) }
{
    if holds {
        MarksStep::On(MarksReading::In(marks, p, place))
    } else {
        MarksStep::Stuck
    }
}

fn in_mark<'a>(
    alloc: Global,
    marks: Marks<'a>,
    p: Lexeme<'a>,
    place: MarkPlace,
    token: &Lexeme<'a>,
) -> Result<MarksStep<'a>, AllocError>
    ensures { IfOk result (λ r. (k : Items PlainParam → State) → marks_step_view r k (lexeme_view token.now) ≡ advance (in_mark place (lexeme_view p.entry) (left_view marks.entry.left.items) (params_of marks.entry.done) k) (lexeme_view token.now)) }
{
    match place {
        MarkPlace::Equals => Ok(on_if(is(token, Class::Equals), marks, p, MarkPlace::Value)),
        MarkPlace::Value => Ok(mark_value(marks, p, token)),
        MarkPlace::Or => Ok(on_if(
            is(token, Class::Operator(JsOp::Or)),
            marks,
            p,
            MarkPlace::Zero,
        )),
        MarkPlace::Zero => marked_if(is_zero(token), alloc, marks, p, false),
        MarkPlace::Double => marked_if(is_named(token, &p), alloc, marks, p, true),
    }
}

/// After `p =`.
fn mark_value<'a>(marks: Marks<'a>, p: Lexeme<'a>, token: &Lexeme<'a>) -> MarksStep<'a>
    ensures { (k : Items PlainParam → State) → marks_step_view result k (lexeme_view token.now) ≡ advance (mark_view (lexeme_view p.entry) (left_view marks.entry.left.items) (params_of marks.entry.done) k) (lexeme_view token.now) }
{
    if is_named(token, &p) {
        MarksStep::On(MarksReading::In(marks, p, MarkPlace::Or))
    } else {
        on_if(
            is(token, Class::Operator(JsOp::Add)),
            marks,
            p,
            MarkPlace::Double,
        )
    }
}

/// The last token of a mark.
#[tactic(auto, using(crate::proofs::Pushes::pushes))]
fn marked_if<'a>(
    holds: bool,
    alloc: Global,
    marks: Marks<'a>,
    p: Lexeme<'a>,
    double: bool,
) -> Result<MarksStep<'a>, AllocError>
    ensures { IfOk result (λ r. (k : Items PlainParam → State) (t : PlainLexeme) → marks_step_view r k t ≡ (if holds then goes (ends (at_marks (left_view marks.entry.left.items) (params_of marks.entry.done ++ mark_of (lexeme_view p.entry) double ∷ []) k)) else stuck t)) }
{
    if !holds {
        return Ok(MarksStep::Stuck);
    }
    let name = Text::from_bytes(alloc, p.text)?;
    let Marks { left, mut done } = marks;
    let param = ParamTree {
        at: p.at,
        name,
        double,
    };
    match done.push(param) {
        Ok(()) => Ok(MarksStep::On(MarksReading::After(Marks { left, done }))),
        Err(_) => Err(AllocError),
    }
}
