//! Bytes as the numbers that they are.
ghost use Rattle.std.specs.Prelude.{◌≡◌};
ghost use Rattle.heap_lang.specs.Numbers.{IsBytes};

/// The bytes as they are, each of them below 256.
pub fn in_range(bytes: &[u8]) -> &[u8]
    ensures same { result.now ≡ bytes.now }
    ensures are_bytes { IsBytes bytes.now }
{
    bytes
}
