//! Whether an expression goes on with a token.

ghost use Rattle.std.specs.Prelude.{◌≡◌};
ghost use Rattle.asm_lang.specs.Trees.{ExprTree};
ghost use Rattle.asm_lang.specs.Machine.{State, Step, infix_by};
ghost use Rattle.asm_lang.specs.Lexemes.{Lexeme as Token};
ghost use Rattle.asm_lang.specs.Grammar.{level_of};
ghost use Rattle.asm_grammar_nodes.specs.Views.{class_view};
ghost use Rattle.asm_grammar_exprs.specs.Infix.{infix_steps};

use asm_grammar_nodes::Class;
use sem_words::JsOp;

/// What a token after an expression is to it.
#[derive(Clone, Copy)]
pub(crate) enum Infix {
    Operator(JsOp),
    Choice,
    Comma,
    /// It can't come here.
    Refused,
}

/// How strongly the operator binds.
pub(crate) fn level_of(operator: JsOp) -> u8
    ensures { result ≡ level_of operator }
{
    match operator {
        JsOp::Or => 5,
        JsOp::Xor => 6,
        JsOp::And => 7,
        JsOp::Eq | JsOp::Ne => 8,
        JsOp::Lt | JsOp::Le | JsOp::Gt | JsOp::Ge => 9,
        JsOp::Shl | JsOp::Sar | JsOp::Shr => 10,
        JsOp::Add | JsOp::Sub => 11,
        JsOp::Mul | JsOp::Div | JsOp::Rem => 12,
    }
}

/// What a token of this class is to an expression of this level, or None where the expression had ended before it.
pub(crate) fn infix_of(level: u8, class: Class) -> Option<Infix>
    ensures { (t : Token) (e : ExprTree) (k : ExprTree → State) (last : Step) → infix_steps result t level e k last ≡ infix_by (class_view class) t level e k last }
{
    match class {
        Class::Operator(operator) => {
            if level <= level_of(operator) {
                Some(Infix::Operator(operator))
            } else {
                None
            }
        }
        Class::Question => {
            if level <= 1 {
                Some(Infix::Choice)
            } else {
                None
            }
        }
        Class::Comma => { if level == 0 { Some(Infix::Comma) } else { None } }
        Class::OpenParen | Class::OpenBracket | Class::Equals => Some(Infix::Refused),
        _ => None,
    }
}
