//! What a declaration gives its name: a literal, or an import.

ghost use Rattle.std.specs.Prelude.{◌≡◌, true, if◌then◌else◌, IfOk, bytes_eq, codes};
ghost use Rattle.asm_lang.specs.Lexemes.{Lexeme as PlainLexeme};
ghost use Rattle.asm_lang.specs.Trees.{Init};
ghost use Rattle.asm_lang.specs.Machine.{advance, after_member, goes, init_by, literal_by, sign_by, State, stuck};
ghost use Rattle.asm_grammar_nodes.specs.Views.{lexeme_view};
ghost use Rattle.asm_grammar_decls.specs.Parts.{before_close, before_double, before_math, before_zero, init_reading_view, init_step_view, view_reading_view};

use crate::want::{is, is_word, is_zero};
use asm_grammar_nodes::{Class, InitTree, Lexeme};
use sem_words::{JsOp, Text};
use std::alloc::{AllocError, Global};

/// What is being read after the `=`: what must come or may come next, and the names so far.
#[derive(Clone, Copy)]
pub enum InitReading<'a> {
    /// Any of the forms.
    Any,
    Literal,
    /// After the minus sign of a literal.
    Sign(Lexeme<'a>),
    Dot(Lexeme<'a>),
    Property(Lexeme<'a>),
    /// After `f.p`, with which it may end.
    Member(Lexeme<'a>, Lexeme<'a>),
    /// After `f.p|`.
    Zero(Lexeme<'a>, Lexeme<'a>),
    /// After `f.Math.`.
    Math(Lexeme<'a>),
    /// After `+`.
    Double,
    DoubleDot(Lexeme<'a>),
    DoubleProperty(Lexeme<'a>),
    View(ViewReading<'a>),
}

/// What is being read after `new`.
#[derive(Clone, Copy)]
pub enum ViewReading<'a> {
    New,
    Dot(Lexeme<'a>),
    Property(Lexeme<'a>),
    Open(Lexeme<'a>, Lexeme<'a>),
    Heap(Lexeme<'a>, Lexeme<'a>),
    Close(Lexeme<'a>, Lexeme<'a>, Lexeme<'a>),
}

/// What one token does to it.
#[derive(Drop)]
pub enum InitStep<'a> {
    On(InitReading<'a>),
    /// The token was taken, and ended it.
    Taken(InitTree),
    /// It had ended before the token, which isn't taken.
    Before(InitTree),
    Stuck,
}

fn on_if(holds: bool, next: InitReading<'_>) -> InitStep<'_>
    ensures { (k : Init → State) (t : PlainLexeme) → init_step_view result k t ≡ (if holds then init_reading_view next.entry k else stuck t) }
{
    if holds {
        InitStep::On(next)
    } else {
        InitStep::Stuck
    }
}

impl<'a> InitReading<'a> {
    /// Reads one token.
    pub fn feed(self, alloc: Global, token: &Lexeme<'a>) -> Result<InitStep<'a>, AllocError>
        ensures { IfOk result (λ r. (k : Init → State) → init_step_view r k (lexeme_view token.now) ≡ advance (init_reading_view self.entry k) (lexeme_view token.now)) }
    {
        match self {
            InitReading::Any => any(alloc, token),
            InitReading::Literal => literal(alloc, token),
            InitReading::Sign(minus) => signed(alloc, minus, token),
            InitReading::Dot(f) => Ok(on_if(is(token, Class::Dot), InitReading::Property(f))),
            InitReading::Property(f) => Ok(on_if(
                is_word(token.class),
                InitReading::Member(f, *token),
            )),
            InitReading::Member(f, p) => after_member(alloc, f, p, token),
            InitReading::Zero(f, p) => foreign_int(alloc, f, p, token),
            InitReading::Math(f) => math(alloc, f, token),
            InitReading::Double => Ok(on_if(
                is(token, Class::Identifier),
                InitReading::DoubleDot(*token),
            )),
            InitReading::DoubleDot(f) => Ok(on_if(
                is(token, Class::Dot),
                InitReading::DoubleProperty(f),
            )),
            InitReading::DoubleProperty(f) => foreign_double(alloc, f, token),
            InitReading::View(reading) => reading.feed(alloc, token),
        }
    }
}

fn view_if(holds: bool, next: ViewReading<'_>) -> InitStep<'_>
    ensures { (k : Init → State) (t : PlainLexeme) → init_step_view result k t ≡ (if holds then view_reading_view next.entry k else stuck t) }
{
    if holds {
        InitStep::On(InitReading::View(next))
    } else {
        InitStep::Stuck
    }
}

impl<'a> ViewReading<'a> {
    fn feed(self, alloc: Global, token: &Lexeme<'a>) -> Result<InitStep<'a>, AllocError>
        ensures { IfOk result (λ r. (k : Init → State) → init_step_view r k (lexeme_view token.now) ≡ advance (view_reading_view self.entry k) (lexeme_view token.now)) }
    {
        let a_name = is(token, Class::Identifier);
        match self {
            ViewReading::New => Ok(view_if(a_name, ViewReading::Dot(*token))),
            ViewReading::Dot(f) => Ok(view_if(is(token, Class::Dot), ViewReading::Property(f))),
            ViewReading::Property(f) => Ok(view_if(
                is_word(token.class),
                ViewReading::Open(f, *token),
            )),
            ViewReading::Open(f, p) => Ok(view_if(
                is(token, Class::OpenParen),
                ViewReading::Heap(f, p),
            )),
            ViewReading::Heap(f, p) => Ok(view_if(a_name, ViewReading::Close(f, p, *token))),
            ViewReading::Close(f, p, heap) => closed_view(alloc, f, p, heap, token),
        }
    }
}

fn closed_view<'a>(
    alloc: Global,
    f: Lexeme<'a>,
    p: Lexeme<'a>,
    heap: Lexeme<'a>,
    token: &Lexeme<'a>,
) -> Result<InitStep<'a>, AllocError>
    ensures { IfOk result (λ r. (k : Init → State) → init_step_view r k (lexeme_view token.now) ≡ advance (before_close (lexeme_view f.entry) (lexeme_view p.entry) (lexeme_view heap.entry) k) (lexeme_view token.now)) }
{
    if is(token, Class::CloseParen) {
        let object = Text::from_bytes(alloc, f.text)?;
        let property = Text::from_bytes(alloc, p.text)?;
        let heap = Text::from_bytes(alloc, heap.text)?;
        Ok(InitStep::Taken(InitTree::View(object, property, heap)))
    } else {
        Ok(InitStep::Stuck)
    }
}

fn any<'a>(alloc: Global, token: &Lexeme<'a>) -> Result<InitStep<'a>, AllocError>
    ensures { IfOk result (λ r. (k : Init → State) → init_step_view r k (lexeme_view token.now) ≡ init_by (lexeme_view token.now).class (lexeme_view token.now) k) }
{
    match token.class {
        Class::Identifier => Ok(InitStep::On(InitReading::Dot(*token))),
        Class::Operator(JsOp::Add) => Ok(InitStep::On(InitReading::Double)),
        Class::New => Ok(InitStep::On(InitReading::View(ViewReading::New))),
        _ => literal(alloc, token),
    }
}

fn literal<'a>(alloc: Global, token: &Lexeme<'a>) -> Result<InitStep<'a>, AllocError>
    ensures { IfOk result (λ r. (k : Init → State) → init_step_view r k (lexeme_view token.now) ≡ literal_by (lexeme_view token.now).class (lexeme_view token.now) true k) }
{
    match token.class {
        Class::Number => Ok(InitStep::Taken(InitTree::Number(i128::from(token.value)))),
        Class::Decimal => {
            let text = Text::from_bytes(alloc, token.text)?;
            Ok(InitStep::Taken(InitTree::Decimal(false, text)))
        }
        Class::Operator(JsOp::Sub) => Ok(InitStep::On(InitReading::Sign(*token))),
        _ => Ok(InitStep::Stuck),
    }
}

fn signed<'a>(
    alloc: Global,
    minus: Lexeme<'a>,
    token: &Lexeme<'a>,
) -> Result<InitStep<'a>, AllocError>
    ensures { IfOk result (λ r. (k : Init → State) → init_step_view r k (lexeme_view token.now) ≡ sign_by (lexeme_view token.now).class (lexeme_view token.now) true (lexeme_view minus.entry) k) }
{
    match token.class {
        Class::Number => {
            if token.value == 0 {
                Ok(InitStep::Stuck)
            } else {
                Ok(InitStep::Taken(InitTree::Number(-i128::from(token.value))))
            }
        }
        Class::Decimal => {
            let text = Text::from_bytes(alloc, token.text)?;
            Ok(InitStep::Taken(InitTree::Decimal(true, text)))
        }
        _ => Ok(InitStep::Stuck),
    }
}

fn after_member<'a>(
    alloc: Global,
    f: Lexeme<'a>,
    p: Lexeme<'a>,
    token: &Lexeme<'a>,
) -> Result<InitStep<'a>, AllocError>
    ensures { IfOk result (λ r. (k : Init → State) → init_step_view r k (lexeme_view token.now) ≡ advance (goes (after_member (lexeme_view f.entry) (lexeme_view p.entry) k)) (lexeme_view token.now)) }
{
    match token.class {
        Class::Operator(JsOp::Or) => Ok(InitStep::On(InitReading::Zero(f, p))),
        Class::Dot => Ok(on_if(is_math(&p), InitReading::Math(f))),
        _ => {
            let object = Text::from_bytes(alloc, f.text)?;
            let property = Text::from_bytes(alloc, p.text)?;
            Ok(InitStep::Before(InitTree::Member(object, property)))
        }
    }
}

fn is_math(token: &Lexeme<'_>) -> bool
    ensures { result ≡ bytes_eq (codes "Math") (lexeme_view token.now).text }
{
    token.text == b"Math".as_slice()
}

fn foreign_int<'a>(
    alloc: Global,
    f: Lexeme<'a>,
    p: Lexeme<'a>,
    token: &Lexeme<'a>,
) -> Result<InitStep<'a>, AllocError>
    ensures { IfOk result (λ r. (k : Init → State) → init_step_view r k (lexeme_view token.now) ≡ advance (before_zero (lexeme_view f.entry) (lexeme_view p.entry) k) (lexeme_view token.now)) }
{
    if is_zero(token) {
        let object = Text::from_bytes(alloc, f.text)?;
        let property = Text::from_bytes(alloc, p.text)?;
        Ok(InitStep::Taken(InitTree::ForeignInt(object, property)))
    } else {
        Ok(InitStep::Stuck)
    }
}

fn math<'a>(alloc: Global, f: Lexeme<'a>, token: &Lexeme<'a>) -> Result<InitStep<'a>, AllocError>
    ensures { IfOk result (λ r. (k : Init → State) → init_step_view r k (lexeme_view token.now) ≡ advance (before_math (lexeme_view f.entry) k) (lexeme_view token.now)) }
{
    if is_word(token.class) {
        let object = Text::from_bytes(alloc, f.text)?;
        let property = Text::from_bytes(alloc, token.text)?;
        Ok(InitStep::Taken(InitTree::Math(object, property)))
    } else {
        Ok(InitStep::Stuck)
    }
}

fn foreign_double<'a>(
    alloc: Global,
    f: Lexeme<'a>,
    token: &Lexeme<'a>,
) -> Result<InitStep<'a>, AllocError>
    ensures { IfOk result (λ r. (k : Init → State) → init_step_view r k (lexeme_view token.now) ≡ advance (before_double (lexeme_view f.entry) k) (lexeme_view token.now)) }
{
    if is_word(token.class) {
        let object = Text::from_bytes(alloc, f.text)?;
        let property = Text::from_bytes(alloc, token.text)?;
        Ok(InitStep::Taken(InitTree::ForeignDouble(object, property)))
    } else {
        Ok(InitStep::Stuck)
    }
}
