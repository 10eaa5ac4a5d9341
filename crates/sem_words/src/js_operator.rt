//! JavaScript's operators (ECMA-262 6th edition, sections 12.5 to 12.11 and 20.2.2).
ghost use Rattle.std.specs.Prelude.{◌≡◌, ◌≤◌, ◌^◌, IfSome, IsTrue, unsigned_abs};
ghost use Rattle.sem_words.specs.JsOperators.{alike_of, are_alike, js_binary_of, js_clz32_of, js_imul_of, js_unary_of, signed_value, unsigned_value, wholes_of};
ghost use Rattle.sem_words.specs.JsValues.{IsValue};

use crate::js_convert::{to_int32, to_uint32, whole};
use crate::js_value::{JsOp, JsUnary, JsValue};
use crate::js_whole::{are_alike, difference, negated, product, quotient, remainder, sum};
use crate::signed::signed32;
use crate::word::Un;
use crate::words32::un32;

/// The operator on two values. None exactly where an operand is of no kind that the operator takes,
/// or where a whole result is past 2^53 in magnitude.
///
/// The bit operators take every value. `+`, `-` and `*` take whole numbers and booleans. `/`, `%` and
/// the comparisons take whole numbers that are both signed 32-bit numbers or both unsigned ones.
pub fn js_binary(op: JsOp, a: JsValue, b: JsValue) -> Option<JsValue>
    requires a_value { IsValue a }
    requires b_value { IsValue b }
    ensures value { result ≡ js_binary_of op a b }
    ensures keeps { IfSome result IsValue }
{
    match op {
        JsOp::Add => wholes(a, b).and_then(|(x, y)| sum(x, y)),
        JsOp::Sub => wholes(a, b).and_then(|(x, y)| difference(x, y)),
        JsOp::Mul => wholes(a, b).and_then(|(x, y)| product(x, y)),
        JsOp::Div => alike(a, b).map(|(x, y)| quotient(x, y)),
        JsOp::Rem => alike(a, b).map(|(x, y)| remainder(x, y)),
        JsOp::Or => Some(signed_value(to_uint32(a) | to_uint32(b))),
        JsOp::And => Some(signed_value(to_uint32(a) & to_uint32(b))),
        JsOp::Xor => Some(signed_value(to_uint32(a) ^ to_uint32(b))),
        JsOp::Shl => Some(signed_value(to_uint32(a).wrapping_shl(to_uint32(b)))),
        JsOp::Sar => Some(JsValue::Whole(i64::from(to_int32(a).wrapping_shr(to_uint32(b))))),
        JsOp::Shr => Some(unsigned_value(to_uint32(a).wrapping_shr(to_uint32(b)))),
        JsOp::Lt => alike(a, b).map(|(x, y)| JsValue::Bool(x < y)),
        JsOp::Le => alike(a, b).map(|(x, y)| JsValue::Bool(x <= y)),
        JsOp::Gt => alike(a, b).map(|(x, y)| JsValue::Bool(x > y)),
        JsOp::Ge => alike(a, b).map(|(x, y)| JsValue::Bool(x >= y)),
        JsOp::Eq => alike(a, b).map(|(x, y)| JsValue::Bool(x == y)),
        JsOp::Ne => alike(a, b).map(|(x, y)| JsValue::Bool(x != y)),
    }
}

/// The prefix operator. None exactly where it doesn't take the operand: `-` and `!` take whole numbers
/// and booleans, `~` takes every value, and `+` takes none.
pub fn js_unary(op: JsUnary, a: JsValue) -> Option<JsValue>
    requires { IsValue a }
    ensures value { result ≡ js_unary_of op a }
    ensures keeps { IfSome result IsValue }
{
    match op {
        JsUnary::Neg => whole(a).map(negated),
        JsUnary::BitNot => Some(signed_value(u32::MAX - to_uint32(a))),
        JsUnary::Not => Some(JsValue::Bool(whole(a)? == 0)),
        JsUnary::Plus => None,
    }
}

/// `Math.imul` (section 20.2.2.19). None exactly where an operand is neither a whole number nor a
/// boolean.
pub fn js_imul(a: JsValue, b: JsValue) -> Option<JsValue>
    requires a_value { IsValue a }
    requires b_value { IsValue b }
    ensures value { result ≡ js_imul_of a b }
    ensures keeps { IfSome result IsValue }
{
    wholes(a, b)?;
    Some(signed_value(to_uint32(a).wrapping_mul(to_uint32(b))))
}

/// `Math.clz32` (section 20.2.2.11). None exactly where the operand is neither a whole number nor a
/// boolean.
pub fn js_clz32(a: JsValue) -> Option<JsValue>
    requires { IsValue a }
    ensures value { result ≡ js_clz32_of a }
    ensures keeps { IfSome result IsValue }
{
    whole(a)?;
    Some(unsigned_value(un32(Un::Clz, to_uint32(a))))
}

fn signed_value(a: u32) -> JsValue
    ensures value { result ≡ signed_value a }
    ensures keeps { IsValue result }
{
    JsValue::Whole(i64::from(signed32(a)))
}

fn unsigned_value(a: u32) -> JsValue
    ensures value { result ≡ unsigned_value a }
    ensures keeps { IsValue result }
{
    JsValue::Whole(i64::from(a))
}

// Two whole numbers or booleans.
fn wholes(a: JsValue, b: JsValue) -> Option<(i64, i64)>
    requires a_value { IsValue a }
    requires b_value { IsValue b }
    ensures value { result ≡ wholes_of a b }
    ensures small { IfSome result (λ p. (unsigned_abs p.0 ≤ 2 ^ 53) × (unsigned_abs p.1 ≤ 2 ^ 53)) }
{
    Some((whole(a)?, whole(b)?))
}

// Two whole numbers of 32 bits, both signed or both unsigned.
fn alike(a: JsValue, b: JsValue) -> Option<(i64, i64)>
    ensures value { result ≡ alike_of a b }
    ensures alike { IfSome result (λ p. IsTrue (are_alike p.0 p.1)) }
{
    match (a, b) {
        (JsValue::Whole(x), JsValue::Whole(y)) if are_alike(x, y) => Some((x, y)),
        _ => None,
    }
}
