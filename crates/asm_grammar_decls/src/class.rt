//! Whether two classes of tokens are the same one.

ghost use Rattle.std.specs.Prelude.{◌≡◌};
ghost use Rattle.asm_lang.specs.Machine.{class_number, operator_number, same_class};
ghost use Rattle.asm_grammar_nodes.specs.Views.{class_view};

use asm_grammar_nodes::Class;
use sem_words::JsOp;

/// The place of an operator in the order of classes.
fn operator_number(operator: JsOp) -> u8
    ensures { result ≡ operator_number operator }
{
    match operator {
        JsOp::Add => 0,
        JsOp::Sub => 1,
        JsOp::Mul => 2,
        JsOp::Div => 3,
        JsOp::Rem => 4,
        JsOp::Or => 5,
        JsOp::And => 6,
        JsOp::Xor => 7,
        JsOp::Shl => 8,
        JsOp::Sar => 9,
        JsOp::Shr => 10,
        JsOp::Lt => 11,
        JsOp::Le => 12,
        JsOp::Gt => 13,
        JsOp::Ge => 14,
        JsOp::Eq => 15,
        JsOp::Ne => 16,
    }
}

/// The place of a class in the order of classes.
fn class_number(class: Class) -> u8
    ensures { result ≡ class_number (class_view class) }
{
    match class {
        Class::Operator(operator) => operator_number(operator),
        Class::Identifier => 17,
        Class::Break => 18,
        Class::Case => 19,
        Class::Continue => 20,
        Class::Default => 21,
        Class::Do => 22,
        Class::Else => 23,
        Class::For => 24,
        Class::Function => 25,
        Class::If => 26,
        Class::In => 27,
        Class::New => 28,
        Class::Return => 29,
        Class::Switch => 30,
        Class::Var => 31,
        Class::While => 32,
        Class::Reserved => 33,
        Class::Number => 34,
        Class::Decimal => 35,
        Class::Directive => 36,
        Class::OpenBrace => 37,
        Class::CloseBrace => 38,
        Class::OpenParen => 39,
        Class::CloseParen => 40,
        Class::OpenBracket => 41,
        Class::CloseBracket => 42,
        Class::Dot => 43,
        Class::Semicolon => 44,
        Class::Comma => 45,
        Class::Question => 46,
        Class::Colon => 47,
        Class::Equals => 48,
        Class::Tilde => 49,
        Class::Bang => 50,
        Class::Other => 51,
    }
}

/// Whether the two are one class.
pub fn same_class(a: Class, b: Class) -> bool
    ensures { result ≡ same_class (class_view a) (class_view b) }
{
    class_number(a) == class_number(b)
}
