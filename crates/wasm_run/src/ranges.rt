// The numbers that a word of a type may be written as.

ghost use Rattle.std.specs.Prelude.{◌≡◌};
ghost use Rattle.wasm_lang_exec.specs.Fits;

use wasm_lang::ValType;

/// Whether a number is a signed or an unsigned reading of some word of the type.
pub fn in_range(kind: ValType, value: i128) -> bool
    ensures { result ≡ Fits.in_range kind value }
{
    match kind {
        ValType::I32 => value >= -2147483648 && value < 4294967296,
        ValType::I64 => value >= -9223372036854775808 && value < 18446744073709551616,
    }
}
