// Names that aren't like others.

ghost use Rattle.std.specs.Prelude.{◌≡◌};
ghost use Rattle.asm_lang_valid.specs.NameRows as rows;

use asm_names::is_word;

/// Whether a name may not be declared.
pub fn is_forbidden(name: &[u8]) -> bool
    ensures { result ≡ rows.is_forbidden name.now }
{
    is_word(b"arguments", name) || is_word(b"eval", name)
}

/// Whether a foreign member or the key of an export may not have a name.
pub fn is_forbidden_key(name: &[u8]) -> bool
    ensures { result ≡ rows.is_forbidden_key name.now }
{
    is_word(b"__proto__", name)
}
