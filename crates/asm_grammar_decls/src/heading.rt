//! The heading of a module: its name, its parameters, and the `{`.

ghost use Rattle.std.specs.Prelude.{◌≡◌, if◌then◌else◌};
ghost use Rattle.asm_lang.specs.Lexemes.{Lexeme as PlainLexeme};
ghost use Rattle.asm_lang.specs.Machine.{advance, heading_step, stuck};
ghost use Rattle.asm_grammar_nodes.specs.Views.{lexeme_view};
ghost use Rattle.asm_grammar_decls.specs.Parts.{after_first, after_second, heading_reading_view, heading_step_view, name_step, name_text};

use crate::want::is;
use asm_grammar_nodes::{Class, Lexeme};

/// The parameters of a module.
#[derive(Clone, Copy)]
pub enum HeadingParams<'a> {
    Zero,
    One(Lexeme<'a>),
    Two(Lexeme<'a>, Lexeme<'a>),
    Three(Lexeme<'a>, Lexeme<'a>, Lexeme<'a>),
}

/// A heading that is being read: what must come or may come next, and the names so far.
#[derive(Clone, Copy)]
pub enum HeadingReading<'a> {
    Start,
    Name,
    OpenParen(Lexeme<'a>),
    FirstParam(Option<Lexeme<'a>>),
    AfterFirst(Option<Lexeme<'a>>, Lexeme<'a>),
    SecondParam(Option<Lexeme<'a>>, Lexeme<'a>),
    AfterSecond(Option<Lexeme<'a>>, Lexeme<'a>, Lexeme<'a>),
    ThirdParam(Option<Lexeme<'a>>, Lexeme<'a>, Lexeme<'a>),
    AfterThird(Option<Lexeme<'a>>, Lexeme<'a>, Lexeme<'a>, Lexeme<'a>),
    OpenBrace(Option<Lexeme<'a>>, HeadingParams<'a>),
}

/// What one token does to a heading.
#[derive(Clone, Copy)]
pub enum HeadingStep<'a> {
    On(HeadingReading<'a>),
    /// The `{` was taken.
    Done(Option<Lexeme<'a>>, HeadingParams<'a>),
    Stuck,
}

fn on_if(holds: bool, next: HeadingReading<'_>) -> HeadingStep<'_>
    ensures { (t : PlainLexeme) → heading_step_view result t ≡ (if holds then heading_reading_view next.entry else stuck t) }
{
    if holds {
        HeadingStep::On(next)
    } else {
        HeadingStep::Stuck
    }
}

impl<'a> HeadingReading<'a> {
    /// Reads one token.
    pub fn feed(self, token: &Lexeme<'a>) -> HeadingStep<'a>
        ensures { heading_step_view result (lexeme_view token.now) ≡ advance (heading_reading_view self.entry) (lexeme_view token.now) }
    {
        let a_name = is(token, Class::Identifier);
        match self {
            HeadingReading::Start => on_if(is(token, Class::Function), HeadingReading::Name),
            HeadingReading::Name => after_function(token),
            HeadingReading::OpenParen(name) => on_if(
                is(token, Class::OpenParen),
                HeadingReading::FirstParam(Some(name)),
            ),
            HeadingReading::FirstParam(name) => first_param(name, token),
            HeadingReading::AfterFirst(name, a) => after_first(name, a, token),
            HeadingReading::SecondParam(name, a) => {
                on_if(a_name, HeadingReading::AfterSecond(name, a, *token))
            }
            HeadingReading::AfterSecond(name, a, b) => after_second(name, a, b, token),
            HeadingReading::ThirdParam(name, a, b) => {
                on_if(a_name, HeadingReading::AfterThird(name, a, b, *token))
            }
            HeadingReading::AfterThird(name, a, b, c) => on_if(
                is(token, Class::CloseParen),
                HeadingReading::OpenBrace(name, HeadingParams::Three(a, b, c)),
            ),
            HeadingReading::OpenBrace(name, params) => {
                if is(token, Class::OpenBrace) {
                    HeadingStep::Done(name, params)
                } else {
                    HeadingStep::Stuck
                }
            }
        }
    }
}

fn after_function<'a>(token: &Lexeme<'a>) -> HeadingStep<'a>
    ensures { heading_step_view result (lexeme_view token.now) ≡ advance name_step (lexeme_view token.now) }
{
    if is(token, Class::Identifier) {
        HeadingStep::On(HeadingReading::OpenParen(*token))
    } else {
        on_if(
            is(token, Class::OpenParen),
            HeadingReading::FirstParam(None),
        )
    }
}

fn first_param<'a>(name: Option<Lexeme<'a>>, token: &Lexeme<'a>) -> HeadingStep<'a>
    ensures { heading_step_view result (lexeme_view token.now) ≡ advance (heading_step (name_text name.entry)) (lexeme_view token.now) }
{
    if is(token, Class::Identifier) {
        HeadingStep::On(HeadingReading::AfterFirst(name, *token))
    } else {
        on_if(
            is(token, Class::CloseParen),
            HeadingReading::OpenBrace(name, HeadingParams::Zero),
        )
    }
}

fn after_first<'a>(name: Option<Lexeme<'a>>, a: Lexeme<'a>, token: &Lexeme<'a>) -> HeadingStep<'a>
    ensures { heading_step_view result (lexeme_view token.now) ≡ advance (after_first (name_text name.entry) a.entry.text.now) (lexeme_view token.now) }
{
    match token.class {
        Class::Comma => HeadingStep::On(HeadingReading::SecondParam(name, a)),
        _ => on_if(
            is(token, Class::CloseParen),
            HeadingReading::OpenBrace(name, HeadingParams::One(a)),
        ),
    }
}

fn after_second<'a>(
    name: Option<Lexeme<'a>>,
    a: Lexeme<'a>,
    b: Lexeme<'a>,
    token: &Lexeme<'a>,
) -> HeadingStep<'a>
    ensures { heading_step_view result (lexeme_view token.now) ≡ advance (after_second (name_text name.entry) a.entry.text.now b.entry.text.now) (lexeme_view token.now) }
{
    match token.class {
        Class::Comma => HeadingStep::On(HeadingReading::ThirdParam(name, a, b)),
        _ => on_if(
            is(token, Class::CloseParen),
            HeadingReading::OpenBrace(name, HeadingParams::Two(a, b)),
        ),
    }
}
