//! What is read off the form of an expression.
ghost use Rattle.std.specs.Prelude.{◌≡◌};
ghost use Rattle.asm_tree.specs.Views.{expr_view};
ghost use Rattle.asm_lang_valid.specs.Typing as typing;
ghost use Rattle.asm2wasm_translation.specs.Values as code;
ghost use Rattle.asm2wasm_emit_values.specs.Indices.{HasForm};

use asm_tree::Expr;
use sem_words::JsOp;

/// Whether the value of an expression is unsigned and may be no signed number.
#[tactic(auto, using(asm_tree::proofs::Views::views))]
pub fn is_unsigned(expr: &Expr) -> bool
    ensures { result ≡ code.is_unsigned (expr_view expr.now) }
{
    match expr {
        Expr::Lit(value) => *value >= 1 << 31,
        Expr::Binary(op, _, _) => *op == JsOp::Shr,
        Expr::Assign(_, value) => is_unsigned(value),
        Expr::Store(_, _, value) => is_unsigned(value),
        Expr::Comma(parts) => match parts.as_slice().last() {
            Some(part) => is_unsigned(part),
            None => false,
        },
        Expr::Decimal(_)
        | Expr::Var(_)
        | Expr::Index(_, _)
        | Expr::Call(_, _)
        | Expr::TableCall(_, _, _)
        | Expr::Unary(_, _)
        | Expr::Chain(_, _)
        | Expr::Cond(_, _, _) => false,
    }
}

/// What tells where the element of an index begins.
#[derive(Clone, Copy)]
pub enum IndexForm<'e> {
    Literal(i128),
    /// What an index `e >> k` shifts.
    Shifted(&'e Expr),
    Other,
}

/// The form of an index.
#[tactic(auto, using(asm_tree::proofs::Views::views))]
pub fn index_form(index: &Expr) -> IndexForm<'_>
    ensures { HasForm (expr_view index.now) result }
{
    match index {
        Expr::Lit(value) => IndexForm::Literal(*value),
        Expr::Binary(op, left, _) => {
            if *op == JsOp::Sar {
                return IndexForm::Shifted(left);
            }
            IndexForm::Other
        }
        Expr::Decimal(_)
        | Expr::Var(_)
        | Expr::Index(_, _)
        | Expr::Call(_, _)
        | Expr::TableCall(_, _, _)
        | Expr::Assign(_, _)
        | Expr::Store(_, _, _)
        | Expr::Unary(_, _)
        | Expr::Chain(_, _)
        | Expr::Cond(_, _, _)
        | Expr::Comma(_) => IndexForm::Other,
    }
}

/// Whether an operator and its right operand are `|0`.
pub fn is_or_zero(op: JsOp, right: &Expr) -> bool
    ensures { result ≡ typing.or_zero op (expr_view right.now) }
{
    op == JsOp::Or && is_zero(right)
}

#[tactic(auto, using(asm_tree::proofs::Views::views))]
fn is_zero(expr: &Expr) -> bool
    ensures { result ≡ typing.is_literal 0 (expr_view expr.now) }
{
    match expr {
        Expr::Lit(value) => *value == 0,
        _ => false,
    }
}
