// The numbers that a word may be written as.

ghost use Rattle.std.specs.Prelude.{◌≡◌};
ghost use Rattle.asm_lang_exec.specs.Fits;

/// Whether a number is a signed or an unsigned reading of a word.
pub fn in_range(value: i128) -> bool
    ensures { result ≡ Fits.in_range value }
{
    value >= -2147483648 && value < 4294967296
}
