//! The numbers that tokens write.

ghost use Rattle.std.specs.Prelude.{◌≡◌, ◌-◌, ◌^◌, false, not, option_map, pos, is_some, Some, ℤ, if◌then◌else◌};
ghost use Rattle.wat_lang.specs.Modules.{natural_or_0, exponent_of};
ghost use Rattle.wat_lang.specs.Numbers as spec;
ghost use Rattle.wat_lang.specs.Rows as rows;
ghost use Rattle.wat_tokens.specs.Numbers.{IsNumber};
ghost use Rattle.wat_read_tokens.specs.declared.numbers.Between.TheVariants.{Words64};
ghost use Rattle.wat_lang.specs.Tokens.{begins_with};
ghost use Rattle.wat_read_tokens.specs.Between.{low_of, high_of, capped, HasSign};

use wat_tokens::{Number, number_of};

/// The ranges of numbers.
#[derive(Clone, Copy)]
pub enum Between {
    /// From 0 to 2^32 - 1.
    Naturals,
    /// Words of 32 bits, or their signed readings.
    Words32,
    /// Words of 64 bits, or their signed readings.
    Words64,
}

impl Between {
    fn has(self, value: i128) -> bool
        ensures { result ≡ rows.is_between (low_of self) (high_of self) value }
    {
        match self {
            Between::Naturals => 0 <= value && value < 4_294_967_296,
            Between::Words32 => -2_147_483_648 <= value && value < 4_294_967_296,
            Between::Words64 => {
                -9_223_372_036_854_775_808 <= value && value < 18_446_744_073_709_551_616
            }
        }
    }
}

fn excludes(between: Between, number: Number) -> bool
    ensures { (z : ℤ) → IsNumber number z → result ≡ not (rows.is_between (low_of between) (high_of between) z) }
{
    match number {
        Number::Far => true,
        Number::Whole(value) => !between.has(value),
    }
}

/// Whether it is a number that is out of the range.
pub fn is_out(text: &[u8], between: Between) -> bool
    ensures { result ≡ rows.is_out (low_of between) (high_of between) (spec.number_of text.now) }
{
    match number_of(text) {
        None => false,
        Some(number) => excludes(between, number),
    }
}

fn whole(number: Number) -> Option<i128>
    ensures { (z : ℤ) → IsNumber number z → rows.is_out (low_of Words64) (high_of Words64) (Some z) ≡ false → result ≡ Some z }
{
    match number {
        Number::Far => None,
        Number::Whole(value) => Some(value),
    }
}

/// The number that is written, where it isn't out of the range of 64 bits.
pub fn whole_in(text: &[u8]) -> Option<i128>
    requires { rows.is_out (low_of Words64) (high_of Words64) (spec.number_of text.now) ≡ false }
    ensures { result ≡ spec.number_of text.now }
{
    match number_of(text) {
        None => None,
        Some(number) => whole(number),
    }
}

#[tactic(auto, using(crate::proofs::Numerals::out_below, crate::proofs::Numerals::out_above))]
fn small(value: i128) -> Option<u32>
    ensures { rows.is_out_32 (Some value) ≡ false → option_map pos result ≡ Some value }
{
    if value < 0 {
        return None;
    }
    if value >= 4_294_967_296 {
        return None;
    }
    Some(value as u32)
}

fn natural(number: Number) -> Option<u32>
    ensures { (z : ℤ) → IsNumber number z → rows.is_out_32 (Some z) ≡ false → option_map pos result ≡ Some z }
{
    match number {
        Number::Far => None,
        Number::Whole(value) => small(value),
    }
}

/// The number that is written, where it isn't out of the range of naturals of 32 bits.
pub fn natural_in(text: &[u8]) -> Option<u32>
    requires { rows.is_out_32 (spec.number_of text.now) ≡ false }
    ensures { option_map pos result ≡ spec.number_of text.now }
{
    match number_of(text) {
        None => None,
        Some(number) => natural(number),
    }
}

/// What stands behind the key, or nothing.
pub fn behind_key<'a>(text: &'a [u8], key: &[u8]) -> &'a [u8]
    ensures { spec.number_of result.now ≡ spec.access_of key.now text.now }
{
    if text.starts_with(key) {
        &text[key.len()..]
    } else {
        &[]
    }
}

/// Whether it is a number.
pub fn is_number(text: &[u8]) -> bool
    ensures { result ≡ is_some (spec.number_of text.now) }
{
    number_of(text).is_some()
}

/// Whether it begins with a minus sign.
fn is_negative(text: &[u8]) -> bool
    ensures { result ≡ begins_with 45 text.now }
{
    matches!(text, [b'-', ..])
}

fn cap(value: i128) -> u64
    ensures { result ≡ capped (Some value) }
{
    if value < 0 {
        0
    } else if value < 18_446_744_073_709_551_616 {
        value as u64
    } else {
        u64::MAX
    }
}

fn far(negative: bool) -> u64
    ensures { result ≡ (if negative then 0 else 2 ^ 64 - 1) }
{
    if negative { 0 } else { u64::MAX }
}

fn capped(number: Number, negative: bool) -> u64
    ensures { (z : ℤ) → IsNumber number z → HasSign negative (Some z) → result ≡ capped (Some z) }
{
    match number {
        Number::Far => far(negative),
        Number::Whole(value) => cap(value),
    }
}

/// The natural number that is written, or 2^64 - 1 where it is above that; 0 where none is written.
pub fn capped_in(text: &[u8]) -> u64
    ensures { result ≡ capped (spec.number_of text.now) }
{
    match number_of(text) {
        None => 0,
        Some(number) => capped(number, is_negative(text)),
    }
}

/// The exponent of a power of two below 2^32.
pub fn exponent_of(n: u64) -> Option<u32>
    ensures { result ≡ exponent_of n }
{
    let mut power = 1;
    let mut exponent = 0;
    while exponent < 32 {
        if power == n {
            return Some(exponent);
        }
        power *= 2;
        exponent += 1;
    }
    None
}

/// The exponent of the power of two below 2^32 that is written.

pub fn exponent_in(text: &[u8]) -> Option<u32>
    ensures { result ≡ exponent_of (natural_or_0 (spec.number_of text.now)) }
{
    exponent_of(capped_in(text))
}
