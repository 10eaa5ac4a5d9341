//! Numbers of the binary format (WebAssembly Core 1.0, section 5.2.2).
ghost use Rattle.std.specs.Prelude.{◌≡◌, ℕ, List, ◌+◌, ◌-◌, ◌*◌, ◌^◌, ◌<◌, ◌≤◌, length, drop, IsTrue, ◌↔◌, IfOk, IfSome, IfNone, MatchResult, Ok, Err};
ghost use Rattle.std.specs.Int.{cast_signed, w32, w64};
ghost use Rattle.wasm_lang.specs.Numbers.{IsUnsigned, IsInteger};
ghost use Rattle.wasm_lang.specs.Reading.{unsigned_at, integer_at};
ghost use Rattle.wasm_tree.specs.Slices.{Inside};

use wasm_lang::{NumberFault, number_laws};

/// The unsigned number of 32 bits that stands at a place, and the place after it. None exactly where no
/// legal one stands there: LEB128 in at most five bytes, with no bit beyond the 32 in the fifth.
pub fn leb_u32(bytes: &[u8], at: usize) -> Option<(u32, usize)>
    ensures found { IfSome result (λ x. (at < x.1) × (x.1 ≤ length bytes.now) × IsUnsigned 32 x.0 (drop at bytes.now) (drop x.1 bytes.now)) }
    ensures none { IfNone result ((n : ℕ) (ys : List ℕ) → ¬ IsUnsigned 32 n (drop at bytes.now) ys) }
{
    number_laws();
    let rest = from_place(bytes, at);
    match unsigned(rest, 32) {
        Ok((n, after)) => Some((n as u32, bytes.len() - after.len())),
        Err(_) => None,
    }
}

/// The signed number of 32 bits that stands at a place, and the place after it. None exactly where no
/// legal one stands there: LEB128 in at most five bytes, where the bits of the fifth beyond the 32 are
/// copies of the sign.
pub fn leb_s32(bytes: &[u8], at: usize) -> Option<(i32, usize)>
    ensures found { IfSome result (λ x. (at < x.1) × (x.1 ≤ length bytes.now) × (word : ℕ) × IsInteger 32 word (drop at bytes.now) (drop x.1 bytes.now) × (x.0 ≡ cast_signed w32 word)) }
    ensures none { IfNone result ((word : ℕ) (ys : List ℕ) → ¬ IsInteger 32 word (drop at bytes.now) ys) }
{
    number_laws();
    let rest = from_place(bytes, at);
    match integer(rest, 32) {
        Ok((word, after)) => Some(((word as u32).cast_signed(), bytes.len() - after.len())),
        Err(_) => None,
    }
}

/// The same for 64 bits, in at most ten bytes.
pub fn leb_s64(bytes: &[u8], at: usize) -> Option<(i64, usize)>
    ensures found { IfSome result (λ x. (at < x.1) × (x.1 ≤ length bytes.now) × (word : ℕ) × IsInteger 64 word (drop at bytes.now) (drop x.1 bytes.now) × (x.0 ≡ cast_signed w64 word)) }
    ensures none { IfNone result ((word : ℕ) (ys : List ℕ) → ¬ IsInteger 64 word (drop at bytes.now) ys) }
{
    number_laws();
    let rest = from_place(bytes, at);
    match integer(rest, 64) {
        Ok((word, after)) => Some((word.cast_signed(), bytes.len() - after.len())),
        Err(_) => None,
    }
}

// The bytes from a place on, none where it is past the end.
fn from_place(bytes: &[u8], at: usize) -> &[u8]
    ensures { result.now ≡ drop at bytes.now }
{
    if at <= bytes.len() {
        let (_, rest) = bytes.split_at(at);
        rest
    } else {
        let (_, rest) = bytes.split_at(bytes.len());
        rest
    }
}

/// The unsigned number of at most so many bits that the bytes begin with, and the bytes after it.
pub fn unsigned(bytes: &[u8], bits: u32) -> Result<(u64, &[u8]), NumberFault>
    requires { (0 < bits) × (bits ≤ 64) }
    ensures bound { IfOk result (λ x. x.0 < 2 ^ bits) }
    ensures shorter { IfOk result (λ x. length x.1.now < length bytes.now) }
    ensures inside { IfOk result (λ x. Inside x.1 bytes.entry) }
    ensures ends { IfOk result (λ x. x.1.ref_ptr.1 + length x.1.now ≡ bytes.entry.ref_ptr.1 + length bytes.now) }
    ensures value { MatchResult result (λ x. unsigned_at bits bytes.now ≡ Ok (x.0, x.1.now)) (λ e. unsigned_at bits bytes.now ≡ Err e) }
{
    let [first, rest @ ..] = bytes else {
        return Err(NumberFault::Ends);
    };
    let byte = u64::from(*first);
    if byte < 128 {
        return if has_bits(byte, bits) {
            Ok((byte, rest))
        } else {
            Err(NumberFault::Illegal)
        };
    }
    if bits <= 7 {
        return Err(NumberFault::Illegal);
    }
    match unsigned(rest, bits - 7) {
        Ok((high, rest)) => Ok((joined(high, byte, bits), rest)),
        Err(fault) => Err(fault),
    }
}

/// The word of at most so many bits whose signed number the bytes begin with, and the bytes after it.
pub fn integer(bytes: &[u8], bits: u32) -> Result<(u64, &[u8]), NumberFault>
    requires { (0 < bits) × (bits ≤ 64) }
    ensures bound { IfOk result (λ x. x.0 < 2 ^ bits) }
    ensures shorter { IfOk result (λ x. length x.1.now < length bytes.now) }
    ensures inside { IfOk result (λ x. Inside x.1 bytes.entry) }
    ensures ends { IfOk result (λ x. x.1.ref_ptr.1 + length x.1.now ≡ bytes.entry.ref_ptr.1 + length bytes.now) }
    ensures value { MatchResult result (λ x. integer_at bits bytes.now ≡ Ok (x.0, x.1.now)) (λ e. integer_at bits bytes.now ≡ Err e) }
{
    let [first, rest @ ..] = bytes else {
        return Err(NumberFault::Ends);
    };
    let byte = u64::from(*first);
    if byte < 64 {
        return if is_positive(byte, bits) {
            Ok((byte, rest))
        } else {
            Err(NumberFault::Illegal)
        };
    }
    if byte < 128 {
        return if is_negative(byte, bits) {
            Ok((extended(byte, bits), rest))
        } else {
            Err(NumberFault::Illegal)
        };
    }
    if bits < 8 {
        return Err(NumberFault::Illegal);
    }
    match integer(rest, bits - 7) {
        Ok((high, rest)) => Ok((joined(high, byte, bits), rest)),
        Err(fault) => Err(fault),
    }
}

// Whether a last byte is in so many bits.
fn has_bits(byte: u64, bits: u32) -> bool
    requires small { byte < 128 }
    requires bits { bits ≤ 64 }
    ensures { IsTrue result ↔ byte < 2 ^ bits }
{
    if bits >= 7 { true } else { byte < 1 << bits }
}

// The number of a byte that isn't the last and those after it.
fn joined(high: u64, byte: u64, bits: u32) -> u64
    requires bits { (7 < bits) × (bits ≤ 64) }
    requires high { high < 2 ^ (bits - 7) }
    requires byte { (128 ≤ byte) × (byte < 256) }
    ensures bound { result < 2 ^ bits }
    ensures value { result ≡ 2 ^ 7 * high + (byte - 2 ^ 7) }
{
    128 * high + (byte - 128)
}

// Whether a last byte that stands for itself is a signed number of so many bits.
fn is_positive(byte: u64, bits: u32) -> bool
    requires small { byte < 64 }
    requires bits { (0 < bits) × (bits ≤ 64) }
    ensures { IsTrue result ↔ byte < 2 ^ (bits - 1) }
{
    if bits >= 7 {
        true
    } else {
        byte < 1 << (bits - 1)
    }
}

// Whether a last byte that stands for itself less 128 is a signed number of so many bits.
fn is_negative(byte: u64, bits: u32) -> bool
    requires small { (64 ≤ byte) × (byte < 128) }
    requires bits { (0 < bits) × (bits ≤ 64) }
    ensures { IsTrue result ↔ 2 ^ 7 ≤ byte + 2 ^ (bits - 1) }
{
    if bits >= 7 {
        true
    } else {
        128 <= byte + (1 << (bits - 1))
    }
}

// The word of so many bits of a last byte that stands for itself less 128.
fn extended(byte: u64, bits: u32) -> u64
    requires small { (64 ≤ byte) × (byte < 128) }
    requires bits { (0 < bits) × (bits ≤ 64) }
    requires fits { 2 ^ 7 ≤ byte + 2 ^ (bits - 1) }
    ensures bound { result < 2 ^ bits }
    ensures value { result ≡ byte + 2 ^ bits - 2 ^ 7 }
{
    if bits == 64 {
        u64::MAX - (127 - byte)
    } else {
        (1 << bits) + byte - 128
    }
}
