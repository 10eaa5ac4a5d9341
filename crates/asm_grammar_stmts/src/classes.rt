//! Classes of tokens.

ghost use Rattle.std.specs.Prelude.{◌≡◌};
ghost use Rattle.asm_lang.specs.Grammar.{may_miss_before};
ghost use Rattle.asm_lang.specs.Machine.{begins_expr, same_class};
ghost use Rattle.asm_grammar_nodes.specs.Views.{class_view};
ghost use Rattle.asm_grammar_stmts.specs.Classes.{sign_class, list_end};

use asm_grammar_nodes::Class;
use sem_words::JsOp;

/// Whether an expression may begin with such a token.
pub(crate) fn begins_expr(class: Class) -> bool
    ensures { result ≡ begins_expr (class_view class) }
{
    match class {
        Class::Identifier
        | Class::Number
        | Class::Decimal
        | Class::OpenParen
        | Class::Tilde
        | Class::Bang => true,
        Class::Operator(operator) => match operator {
            JsOp::Add | JsOp::Sub => true,
            _ => false,
        },
        _ => false,
    }
}

/// Whether the `;` of a statement may be missing before such a token; `line`: a line end stands before the token.
pub(crate) fn may_miss_before(class: Class, line: bool) -> bool
    ensures { result ≡ may_miss_before (class_view class) line }
{
    match class {
        Class::CloseBrace => true,
        Class::In => false,
        Class::Number
        | Class::Decimal
        | Class::Identifier
        | Class::Break
        | Class::Case
        | Class::Continue
        | Class::Default
        | Class::Do
        | Class::Else
        | Class::For
        | Class::Function
        | Class::If
        | Class::New
        | Class::Return
        | Class::Switch
        | Class::Var
        | Class::While
        | Class::Reserved => line,
        _ => false,
    }
}

/// A token that has to come where it may come.
#[derive(Clone, Copy)]
pub(crate) enum Sign {
    OpenParen,
    CloseParen,
    OpenBrace,
    Semicolon,
    Colon,
    While,
    Else,
}

/// Whether such a token is the sign.
pub(crate) fn is(class: Class, sign: Sign) -> bool
    ensures { result ≡ same_class (sign_class sign) (class_view class) }
{
    match (sign, class) {
        (Sign::OpenParen, Class::OpenParen)
        | (Sign::CloseParen, Class::CloseParen)
        | (Sign::OpenBrace, Class::OpenBrace)
        | (Sign::Semicolon, Class::Semicolon)
        | (Sign::Colon, Class::Colon)
        | (Sign::While, Class::While)
        | (Sign::Else, Class::Else) => true,
        _ => false,
    }
}

/// What ends the statements of a list or of a clause.
#[derive(Clone, Copy)]
pub(crate) enum ListEnd {
    Brace,
    Case,
    Default,
}

/// What ends with such a token.
pub(crate) fn list_end(class: Class) -> Option<ListEnd>
    ensures { result ≡ list_end (class_view class) }
{
    match class {
        Class::CloseBrace => Some(ListEnd::Brace),
        Class::Case => Some(ListEnd::Case),
        Class::Default => Some(ListEnd::Default),
        _ => None,
    }
}
