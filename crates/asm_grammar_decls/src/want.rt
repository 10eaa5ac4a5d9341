//! What the grammar asks of a token.

ghost use Rattle.std.specs.Prelude.{◌≡◌};
ghost use Rattle.asm_lang.specs.Grammar.{may_miss_before};
ghost use Rattle.asm_lang.specs.Lexemes.{a_zero, is_word, named};
ghost use Rattle.asm_lang.specs.Machine.{end_by, meets, same_class, State, Step};
ghost use Rattle.asm_grammar_nodes.specs.Views.{class_view, lexeme_view};
ghost use Rattle.asm_grammar_decls.specs.Parts.{ending_view};

use crate::class::same_class;
use asm_grammar_nodes::{Class, Lexeme};

/// Whether the token is of this class.
pub fn is(token: &Lexeme<'_>, class: Class) -> bool
    ensures { result ≡ same_class (class_view class) (lexeme_view token.now).class }
{
    same_class(class, token.class)
}

/// Whether tokens of this class are names, reserved or not.
pub fn is_word(class: Class) -> bool
    ensures { result ≡ is_word (class_view class) }
{
    match class {
        Class::Identifier => true,
        Class::Break | Class::Case | Class::Continue | Class::Default | Class::Do => true,
        Class::Else | Class::For | Class::Function | Class::If | Class::In => true,
        Class::New | Class::Return | Class::Switch | Class::Var | Class::While => true,
        Class::Reserved => true,
        _ => false,
    }
}

/// Whether the token is a number of value 0.
pub fn is_zero(token: &Lexeme<'_>) -> bool
    ensures { result ≡ meets a_zero (lexeme_view token.now) }
{
    is(token, Class::Number) && token.value == 0
}

/// Whether the token is this name, and not reserved.
pub fn is_named(token: &Lexeme<'_>, name: &Lexeme<'_>) -> bool
    ensures { result ≡ meets (named (lexeme_view name.now).text) (lexeme_view token.now) }
{
    is(token, Class::Identifier) && name.text == token.text
}

/// Whether a `;` before the token may be missing.
fn may_miss_before(token: &Lexeme<'_>) -> bool
    ensures { result ≡ may_miss_before (lexeme_view token.now).class (lexeme_view token.now).line }
{
    match token.class {
        Class::CloseBrace => true,
        Class::Number | Class::Decimal => token.line,
        Class::In => false,
        class => is_word(class) && token.line,
    }
}

/// How what came before a token ends.
#[derive(Clone, Copy)]
pub enum Ending {
    /// The token is its `;`.
    Written,
    /// Its `;` is missing.
    Missing,
    /// It doesn't end here.
    Wrong,
}

/// Whether the token is the `;` of what came before it, or that one is missing.
pub fn end_before(token: &Lexeme<'_>) -> Ending
    ensures { (s : State) (last : Step) → ending_view result (lexeme_view token.now) s last ≡ end_by (lexeme_view token.now).class (lexeme_view token.now) s last }
{
    match token.class {
        Class::Semicolon => Ending::Written,
        _ => {
            if may_miss_before(token) {
                Ending::Missing
            } else {
                Ending::Wrong
            }
        }
    }
}
