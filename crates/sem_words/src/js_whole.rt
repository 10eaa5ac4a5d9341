//! JavaScript's arithmetic on whole numbers (ECMA-262 6th edition, sections 12.5 to 12.7).
ghost use Rattle.std.specs.Prelude.{◌≡◌, ◌+ℤ◌, ◌-ℤ◌, ◌≢◌, ◌≤◌, ◌^◌, IfSome, IsTrue, int_rem, pos, unsigned_abs};
ghost use Rattle.sem_words.specs.JsOperators.{are_alike, by_zero_of, exact_of, fraction_of, is_signed, is_unsigned, is_zero, negated_of, product_of, quotient_of, remainder_of, whole_quotient_of};
ghost use Rattle.sem_words.specs.JsValues.{IsValue};

use crate::js_value::JsValue;

const LARGEST: u64 = 1 << 53;

// The whole number, unless it is past 2^53 in magnitude.
fn exact(z: i64) -> Option<JsValue>
    ensures value { result ≡ exact_of z }
    ensures keeps { IfSome result IsValue }
{
    if z.unsigned_abs() <= LARGEST {
        Some(JsValue::Whole(z))
    } else {
        None
    }
}

// A sum, unless it is past 2^53 in magnitude.
pub(crate) fn sum(x: i64, y: i64) -> Option<JsValue>
    requires x_small { unsigned_abs x ≤ 2 ^ 53 }
    requires y_small { unsigned_abs y ≤ 2 ^ 53 }
    ensures value { result ≡ exact_of (x +ℤ y) }
    ensures keeps { IfSome result IsValue }
{
    exact(x + y)
}

// A difference, unless it is past 2^53 in magnitude.
pub(crate) fn difference(x: i64, y: i64) -> Option<JsValue>
    requires x_small { unsigned_abs x ≤ 2 ^ 53 }
    requires y_small { unsigned_abs y ≤ 2 ^ 53 }
    ensures value { result ≡ exact_of (x -ℤ y) }
    ensures keeps { IfSome result IsValue }
{
    exact(x - y)
}

// A product, unless it is past 2^53 in magnitude. 0 times a negative number is -0.
pub(crate) fn product(x: i64, y: i64) -> Option<JsValue>
    ensures value { result ≡ product_of x y }
    ensures keeps { IfSome result IsValue }
{
    match x.checked_mul(y) {
        Some(0) if x < 0 || y < 0 => Some(JsValue::NegZero),
        Some(z) => exact(z),
        None => None,
    }
}

// The number with the other sign. That of 0 is -0.
pub(crate) fn negated(x: i64) -> JsValue
    requires { unsigned_abs x ≤ 2 ^ 53 }
    ensures value { result ≡ negated_of x }
    ensures keeps { IsValue result }
{
    if x == 0 {
        JsValue::NegZero
    } else {
        JsValue::Whole(-x)
    }
}

// A quotient. It stays an exact pair where it isn't whole.
pub(crate) fn quotient(x: i64, y: i64) -> JsValue
    requires { IsTrue (are_alike x y) }
    ensures value { result ≡ quotient_of x y }
    ensures keeps { IsValue result }
{
    if y == 0 {
        by_zero(x)
    } else if is_multiple(x, y) {
        whole_quotient(x, y)
    } else {
        fraction(x, y)
    }
}

fn is_multiple(x: i64, y: i64) -> bool
    requires alike { IsTrue (are_alike x y) }
    requires divisor { y ≢ pos 0 }
    ensures { result ≡ is_zero (int_rem x y) }
{
    x % y == 0
}

fn by_zero(x: i64) -> JsValue
    ensures value { result ≡ by_zero_of x }
    ensures keeps { IsValue result }
{
    if x == 0 {
        JsValue::NaN
    } else if x < 0 {
        JsValue::NegInf
    } else {
        JsValue::PosInf
    }
}

fn whole_quotient(x: i64, y: i64) -> JsValue
    requires alike { IsTrue (are_alike x y) }
    requires divisor { y ≢ pos 0 }
    ensures value { result ≡ whole_quotient_of x y }
    ensures keeps { IsValue result }
{
    if x == 0 && y < 0 {
        JsValue::NegZero
    } else {
        JsValue::Whole(x / y)
    }
}

fn fraction(x: i64, y: i64) -> JsValue
    requires alike { IsTrue (are_alike x y) }
    requires divisor { y ≢ pos 0 }
    requires no_whole { ¬ (int_rem x y ≡ pos 0) }
    ensures value { result ≡ fraction_of x y }
    ensures keeps { IsValue result }
{
    if y < 0 {
        JsValue::Frac(-x, -y)
    } else {
        JsValue::Frac(x, y)
    }
}

// A remainder. It has the dividend's sign, so that of a negative dividend may be -0.
pub(crate) fn remainder(x: i64, y: i64) -> JsValue
    requires { IsTrue (are_alike x y) }
    ensures value { result ≡ remainder_of x y }
    ensures keeps { IsValue result }
{
    if y == 0 {
        return JsValue::NaN;
    }
    let rest = x % y;
    if rest == 0 && x < 0 {
        JsValue::NegZero
    } else {
        JsValue::Whole(rest)
    }
}

// Whether both are signed 32-bit numbers, or both are unsigned ones.
pub(crate) fn are_alike(x: i64, y: i64) -> bool
    ensures { result ≡ are_alike x y }
{
    (signed(x) && signed(y)) || (unsigned(x) && unsigned(y))
}

fn signed(z: i64) -> bool
    ensures { result ≡ is_signed z }
{
    -(1 << 31) <= z && z < 1 << 31
}

fn unsigned(z: i64) -> bool
    ensures { result ≡ is_unsigned z }
{
    0 <= z && z < 1 << 32
}
