//! Words and their signed readings.
ghost use Rattle.std.specs.Prelude.{◌≡◌, ◌<◌};
ghost use Rattle.sem_words.specs.Words.{extend_of, signed_of, word_of};

/// The signed reading of a 32-bit word (WebAssembly Core 1.0, section 4.3.2, "Sign
/// Interpretation").
pub fn signed32(a: u32) -> i32
    ensures { result ≡ signed_of 32 a }
{
    a.cast_signed()
}

/// The signed reading of a 64-bit word.
pub fn signed64(a: u64) -> i64
    ensures { result ≡ signed_of 64 a }
{
    a.cast_signed()
}

/// The 32-bit word that has this signed reading.
pub fn word32(z: i32) -> u32
    ensures { result ≡ word_of 32 z }
{
    z.cast_unsigned()
}

/// The 64-bit word that has this signed reading.
pub fn word64(z: i64) -> u64
    ensures { result ≡ word_of 64 z }
{
    z.cast_unsigned()
}

/// The 32-bit word whose signed reading is that of its `bits` low bits (WebAssembly Core 2.0,
/// section 4.3.2, `iextendM_s`).
pub fn extend32(bits: u32, a: u32) -> u32
    requires some { 0 < bits }
    requires fewer { bits < 32 }
    ensures { result ≡ extend_of 32 bits a }
{
    let low = a % (1 << bits);
    if low < 1 << (bits - 1) {
        low
    } else {
        low.wrapping_sub(1 << bits)
    }
}

/// The 64-bit word whose signed reading is that of its `bits` low bits.
pub fn extend64(bits: u32, a: u64) -> u64
    requires some { 0 < bits }
    requires fewer { bits < 64 }
    ensures { result ≡ extend_of 64 bits a }
{
    let low = a % (1 << bits);
    if low < 1 << (bits - 1) {
        low
    } else {
        low.wrapping_sub(1 << bits)
    }
}
