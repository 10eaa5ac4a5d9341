//! The literals of declarations and clauses.

ghost use Rattle.std.specs.Prelude.{◌≡◌};
ghost use Rattle.asm_lang.specs.Modules.{nearest, value_of};

/// The nearest number of 64 bits.
pub(crate) fn nearest(value: i128) -> i64
    ensures { result ≡ nearest value }
{
    if value < i64::MIN as i128 {
        i64::MIN
    } else if (i64::MAX as i128) < value {
        i64::MAX
    } else {
        value as i64
    }
}

pub(crate) fn value_of(value: Option<i128>) -> Option<i64>
    ensures { result ≡ value_of value }
{
    match value {
        None => None,
        Some(value) => Some(nearest(value)),
    }
}
