//! Which values a type has.
ghost use Rattle.std.specs.Prelude.{◌≡◌};
ghost use Rattle.asm_types.specs.Values.{fits_of};
ghost use Rattle.sem_words.specs.JsValues.{IsValue};

use crate::value_type::ValueType;
use sem_words::JsValue;

/// Whether the value is one of the type.
///
/// Fixnum, signed, unsigned and extern have whole numbers of a range, int has whole numbers and
/// booleans, intish has every value, and void has none.
pub fn fits(t: ValueType, v: JsValue) -> bool
    requires { IsValue v }
    ensures { result ≡ fits_of t v }
{
    match v {
        JsValue::Whole(z) => is_within(t, z),
        JsValue::Bool(_) => matches!(t, ValueType::Int | ValueType::Intish),
        _ => t == ValueType::Intish,
    }
}

fn is_within(t: ValueType, z: i64) -> bool
    ensures { result ≡ fits_of t (JsValue.Whole z) }
{
    match t {
        ValueType::Fixnum => 0 <= z && z < 1 << 31,
        ValueType::Signed | ValueType::Extern => -(1 << 31) <= z && z < 1 << 31,
        ValueType::Unsigned => 0 <= z && z < 1 << 32,
        ValueType::Int => -(1 << 31) <= z && z < 1 << 32,
        ValueType::Intish => true,
        ValueType::Void => false,
    }
}
