//! What is read off the form of an expression.
ghost use Rattle.std.specs.Prelude.{◌≡◌};
ghost use Rattle.asm_tree.specs.Views.{expr_view};
ghost use Rattle.asm_lang_valid.specs.Typing as typing;
ghost use Rattle.asm2wasm_translation.specs.Values as translation;

use asm_tree::Expr;
use sem_words::JsOp;

/// Whether the value of an expression is unsigned and may be no signed number.
#[tactic(auto, using(asm_tree::proofs::Views::views))]
pub fn is_unsigned(expr: &Expr) -> bool
    ensures { result ≡ translation.is_unsigned (expr_view expr.now) }
{
    match expr {
        Expr::Lit(value) => *value >= 1 << 31,
        Expr::Binary(op, _, _) => *op == JsOp::Shr,
        Expr::Assign(_, value) => is_unsigned(value),
        Expr::Store(_, _, value) => is_unsigned(value),
        Expr::Comma(parts) => match parts.as_slice().last() {
            Some(part) => is_unsigned(part),
            None => false,
        },
        Expr::Decimal(_) => false,
        Expr::Var(_) => false,
        Expr::Index(_, _) => false,
        Expr::Call(_, _) => false,
        Expr::TableCall(_, _, _) => false,
        Expr::Unary(_, _) => false,
        Expr::Chain(_, _) => false,
        Expr::Cond(_, _, _) => false,
    }
}

/// Whether an operator and its right operand are `|0`.
pub fn is_or_zero(op: JsOp, right: &Expr) -> bool
    ensures { result ≡ typing.or_zero op (expr_view right.now) }
{
    op == JsOp::Or && is_zero(right)
}

#[tactic(auto, using(asm_tree::proofs::Views::views))]
fn is_zero(expr: &Expr) -> bool
    ensures { result ≡ typing.is_literal 0 (expr_view expr.now) }
{
    match expr {
        Expr::Lit(value) => *value == 0,
        Expr::Decimal(_) => false,
        Expr::Var(_) => false,
        Expr::Index(_, _) => false,
        Expr::Call(_, _) => false,
        Expr::TableCall(_, _, _) => false,
        Expr::Assign(_, _) => false,
        Expr::Store(_, _, _) => false,
        Expr::Unary(_, _) => false,
        Expr::Binary(_, _, _) => false,
        Expr::Chain(_, _) => false,
        Expr::Cond(_, _, _) => false,
        Expr::Comma(_) => false,
    }
}
