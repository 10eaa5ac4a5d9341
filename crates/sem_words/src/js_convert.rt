//! The conversions of ECMA-262 6th edition, section 7.1.
ghost use Rattle.std.specs.Prelude.{◌≡◌, ◌≤◌, ◌^◌, IfSome, unsigned_abs};
ghost use Rattle.sem_words.specs.JsOperators.{whole_of};
ghost use Rattle.sem_words.specs.JsValues.{IsValue, to_int32_of, to_uint32_of, truthy_of};
ghost use Rattle.sem_words.specs.Words.{word_of};

use crate::js_value::JsValue;
use crate::signed::signed32;

/// ToInt32 (section 7.1.5).
pub fn to_int32(v: JsValue) -> i32
    requires { IsValue v }
    ensures { result ≡ to_int32_of v }
{
    signed32(to_uint32(v))
}

/// ToUint32 (section 7.1.6).
pub fn to_uint32(v: JsValue) -> u32
    requires { IsValue v }
    ensures { result ≡ to_uint32_of v }
{
    match v {
        JsValue::Whole(z) => low_word(z),
        JsValue::Frac(a, b) => low_word(a / b),
        JsValue::Bool(b) => u32::from(b),
        JsValue::NegZero | JsValue::NaN | JsValue::PosInf | JsValue::NegInf | JsValue::Undef => 0,
    }
}

/// ToBoolean (section 7.1.2): whether a condition with this value holds.
pub fn truthy(v: JsValue) -> bool
    requires { IsValue v }
    ensures { result ≡ truthy_of v }
{
    match v {
        JsValue::Whole(z) => z != 0,
        JsValue::Bool(b) => b,
        JsValue::Frac(_, _) | JsValue::PosInf | JsValue::NegInf => true,
        JsValue::NegZero | JsValue::NaN | JsValue::Undef => false,
    }
}

// The number of a whole number or a boolean.
pub(crate) fn whole(v: JsValue) -> Option<i64>
    requires { IsValue v }
    ensures value { result ≡ whole_of v }
    ensures small { IfSome result (λ z. unsigned_abs z ≤ 2 ^ 53) }
{
    match v {
        JsValue::Whole(z) => Some(z),
        JsValue::Bool(b) => Some(i64::from(b)),
        _ => None,
    }
}

// A whole number modulo 2^32.
fn low_word(z: i64) -> u32
    ensures { result ≡ word_of 32 z }
{
    z.rem_euclid(1 << 32) as u32
}
