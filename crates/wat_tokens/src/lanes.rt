//! Runs in strings, by sixteen bytes at a time.

ghost use Rattle.std.specs.Prelude.{◌≡◌, ◌+◌, ◌≤◌, length};
ghost use Rattle.wat_tokens.specs.Fronts.{is_plain};
ghost use Rattle.wat_tokens.specs.Runs.{first_set, IsRunIn};

use std::simd::prelude::*;

pub const LANES: usize = 16;

/// The place of the lowest bit that is set, or past all of them where none is.
#[inline(always)]
fn first_set(mask: u64) -> usize
    ensures { result ≡ first_set mask LANES }
{
    if mask == 0 {
        LANES
    } else {
        mask.trailing_zeros() as usize
    }
}

/// How many of sixteen bytes from an offset on stand for themselves, up to the first that doesn't.
#[inline(always)]
pub fn plain_run(s: &[u8], at: usize) -> usize
    requires { at + LANES ≤ length s.now }
    ensures { IsRunIn is_plain s.now at LANES result }
{
    let v = u8x16::from_slice(&s[at..]);
    let controls = v.simd_lt(u8x16::splat(b' ')) | v.simd_eq(u8x16::splat(0x7f));
    let signs = v.simd_eq(u8x16::splat(b'"')) | v.simd_eq(u8x16::splat(b'\\'));
    first_set((controls | signs).to_bitmask())
}
