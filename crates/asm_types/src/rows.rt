//! The rows of the operators.
ghost use Rattle.std.specs.Prelude.{◌≡◌};
ghost use Rattle.asm_types.specs.Rows.{accepts, alike, are_below, binary_row_of, unary_row_of};

use crate::value_type::{ValueType, below};
use sem_words::{JsOp, JsUnary};

/// The type of an operator's result at operands of these types. None exactly where no row has them.
///
/// The rows of `+` and `-` are those of a chain, and the row of `*` is that of a product with a literal:
/// both types are below int. How long a chain is, and what the literal is, isn't seen here.
pub fn binary_row(op: JsOp, a: ValueType, b: ValueType) -> Option<ValueType>
    ensures { result ≡ binary_row_of op a b }
{
    match op {
        JsOp::Add | JsOp::Sub | JsOp::Mul => {
            are_below(a, b, ValueType::Int).then_some(ValueType::Intish)
        }
        JsOp::Div | JsOp::Rem => are_alike(a, b).then_some(ValueType::Intish),
        JsOp::Or | JsOp::And | JsOp::Xor | JsOp::Shl | JsOp::Sar => {
            are_below(a, b, ValueType::Intish).then_some(ValueType::Signed)
        }
        JsOp::Shr => are_below(a, b, ValueType::Intish).then_some(ValueType::Unsigned),
        JsOp::Lt | JsOp::Le | JsOp::Gt | JsOp::Ge | JsOp::Eq | JsOp::Ne => {
            are_alike(a, b).then_some(ValueType::Int)
        }
    }
}

/// The type of a prefix operator's result at an operand of this type. None exactly where no row has it.
pub fn unary_row(op: JsUnary, a: ValueType) -> Option<ValueType>
    ensures { result ≡ unary_row_of op a }
{
    match op {
        JsUnary::Neg => below(a, ValueType::Int).then_some(ValueType::Intish),
        JsUnary::BitNot => below(a, ValueType::Intish).then_some(ValueType::Signed),
        JsUnary::Not => below(a, ValueType::Int).then_some(ValueType::Int),
        JsUnary::Plus => None,
    }
}

fn are_below(a: ValueType, b: ValueType, top: ValueType) -> bool
    ensures { result ≡ are_below a b top }
{
    below(a, top) && below(b, top)
}

fn are_alike(a: ValueType, b: ValueType) -> bool
    ensures { result ≡ accepts alike a b }
{
    are_below(a, b, ValueType::Signed) || are_below(a, b, ValueType::Unsigned)
}
