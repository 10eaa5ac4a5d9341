// Literals, and the places where one is asked for.

ghost use Rattle.std.specs.Prelude.{◌≡◌};
ghost use Rattle.asm_tree.specs.Views.{expr_view};
ghost use Rattle.asm_lang_valid.specs.Typing as typing;
ghost use Rattle.asm_validate_exprs.specs.Forms.{literal_of, mask_of};

use asm_tree::Expr;
use asm_types::ValueType;
use sem_words::JsOp;

/// The type of a literal, or None where it isn't in [-2^31, 2^32).
pub fn literal_type(value: i128) -> Option<ValueType>
    ensures { result ≡ typing.literal_type value }
{
    if value < -(1 << 31) || value >= 1 << 32 {
        None
    } else if value < 0 {
        Some(ValueType::Signed)
    } else if value < 1 << 31 {
        Some(ValueType::Fixnum)
    } else {
        Some(ValueType::Unsigned)
    }
}

/// The value of a literal.
#[tactic(auto, using(asm_tree::proofs::Views::views))]
pub fn literal(expr: &Expr) -> Option<i128>
    ensures { result ≡ literal_of (expr_view expr.now) }
{
    match expr {
        Expr::Lit(value) => Some(*value),
        Expr::Decimal(_)
        | Expr::Var(_)
        | Expr::Index(_, _)
        | Expr::Call(_, _)
        | Expr::TableCall(_, _, _)
        | Expr::Assign(_, _)
        | Expr::Store(_, _, _)
        | Expr::Unary(_, _)
        | Expr::Binary(_, _, _)
        | Expr::Chain(_, _)
        | Expr::Cond(_, _, _)
        | Expr::Comma(_) => None,
    }
}

/// Whether an expression is this literal.
pub fn is_literal(n: u64, expr: &Expr) -> bool
    ensures { result ≡ typing.is_literal n (expr_view expr.now) }
{
    match literal(expr) {
        Some(value) => value == i128::from(n),
        None => false,
    }
}

/// Whether an expression is a literal n with -2^20 < n < 2^20.
pub fn is_factor(expr: &Expr) -> bool
    ensures { result ≡ typing.is_factor (expr_view expr.now) }
{
    match literal(expr) {
        Some(value) => value.unsigned_abs() < 1 << 20,
        None => false,
    }
}

/// Whether `op` and its second operand are `|0`.
pub fn or_zero(op: JsOp, right: &Expr) -> bool
    ensures { result ≡ typing.or_zero op (expr_view right.now) }
{
    op == JsOp::Or && is_literal(0, right)
}

/// The literal that masks an index.
#[tactic(auto, using(asm_tree::proofs::Views::views))]
fn mask(index: &Expr) -> Option<i128>
    ensures { result ≡ mask_of (expr_view index.now) }
{
    match index {
        Expr::Binary(op, _, mask) => {
            if *op == JsOp::And {
                literal(mask)
            } else {
                None
            }
        }
        Expr::Lit(_)
        | Expr::Decimal(_)
        | Expr::Var(_)
        | Expr::Index(_, _)
        | Expr::Call(_, _)
        | Expr::TableCall(_, _, _)
        | Expr::Assign(_, _)
        | Expr::Store(_, _, _)
        | Expr::Unary(_, _)
        | Expr::Chain(_, _)
        | Expr::Cond(_, _, _)
        | Expr::Comma(_) => None,
    }
}

/// Whether an index is masked by a table's length less one.
pub fn is_masked(length: usize, index: &Expr) -> bool
    ensures { result ≡ typing.masked length (expr_view index.now) }
{
    match mask(index) {
        Some(mask) => mask >= 0 && mask == length as i128 - 1,
        None => false,
    }
}
