//! The operators on 32-bit words (WebAssembly Core 1.0, section 4.3.2).
ghost use Rattle.std.specs.Prelude.{◌≡◌};
ghost use Rattle.sem_words.specs.Words.{bin_of, div_s_of, div_u_of, leading_zeros_of, rel_of, rem_s_of, rem_u_of, rotl_of, rotr_of, set_bits_of, shl_of, shr_s_of, shr_u_of, trailing_zeros_of, un_of};

use crate::signed::{signed32, word32};
use crate::word::{Bin, Rel, TrapKind, Un};

const LEAST: u32 = 1 << 31;

const MINUS_ONE: u32 = u32::MAX;

/// The operator on two words, or why it traps: `ZeroDivisor` exactly for the four quotients and
/// remainders by 0, and `Overflow` exactly for the signed quotient of the least number by -1.
pub fn bin32(op: Bin, a: u32, b: u32) -> Result<u32, TrapKind>
    ensures { result ≡ bin_of 32 op a b }
{
    match op {
        Bin::Add => Ok(a.wrapping_add(b)),
        Bin::Sub => Ok(a.wrapping_sub(b)),
        Bin::Mul => Ok(a.wrapping_mul(b)),
        Bin::DivS => div_s(a, b),
        Bin::DivU => div_u(a, b),
        Bin::RemS => rem_s(a, b),
        Bin::RemU => rem_u(a, b),
        Bin::And => Ok(a & b),
        Bin::Or => Ok(a | b),
        Bin::Xor => Ok(a ^ b),
        Bin::Shl => Ok(shl(a, b)),
        Bin::ShrS => Ok(shr_s(a, b)),
        Bin::ShrU => Ok(shr_u(a, b)),
        Bin::Rotl => Ok(rotl(a, b)),
        Bin::Rotr => Ok(rotr(a, b)),
    }
}

/// The operator on one word.
pub fn un32(op: Un, a: u32) -> u32
    ensures { result ≡ un_of 32 op a }
{
    match op {
        Un::Clz => clz(a),
        Un::Ctz => ctz(a),
        Un::Popcnt => popcnt(a),
    }
}

/// Whether the comparison holds.
pub fn rel32(op: Rel, a: u32, b: u32) -> bool
    ensures { result ≡ rel_of 32 op a b }
{
    match op {
        Rel::Eq => a == b,
        Rel::Ne => a != b,
        Rel::LtS => signed32(a) < signed32(b),
        Rel::LtU => a < b,
        Rel::GtS => signed32(a) > signed32(b),
        Rel::GtU => a > b,
        Rel::LeS => signed32(a) <= signed32(b),
        Rel::LeU => a <= b,
        Rel::GeS => signed32(a) >= signed32(b),
        Rel::GeU => a >= b,
    }
}

fn div_u(a: u32, b: u32) -> Result<u32, TrapKind>
    ensures { result ≡ div_u_of a b }
{
    if b == 0 {
        Err(TrapKind::ZeroDivisor)
    } else {
        Ok(a / b)
    }
}

fn rem_u(a: u32, b: u32) -> Result<u32, TrapKind>
    ensures { result ≡ rem_u_of a b }
{
    if b == 0 {
        Err(TrapKind::ZeroDivisor)
    } else {
        Ok(a % b)
    }
}

fn div_s(a: u32, b: u32) -> Result<u32, TrapKind>
    ensures { result ≡ div_s_of 32 a b }
{
    if b == 0 {
        Err(TrapKind::ZeroDivisor)
    } else if a == LEAST && b == MINUS_ONE {
        Err(TrapKind::Overflow)
    } else {
        Ok(word32(signed32(a) / signed32(b)))
    }
}

fn rem_s(a: u32, b: u32) -> Result<u32, TrapKind>
    ensures { result ≡ rem_s_of 32 a b }
{
    if b == 0 {
        Err(TrapKind::ZeroDivisor)
    } else {
        Ok(word32(signed32(a).wrapping_rem(signed32(b))))
    }
}

fn shl(a: u32, b: u32) -> u32
    ensures { result ≡ shl_of 32 a b }
{
    a.wrapping_shl(b)
}

fn shr_u(a: u32, b: u32) -> u32
    ensures { result ≡ shr_u_of 32 a b }
{
    a.wrapping_shr(b)
}

fn shr_s(a: u32, b: u32) -> u32
    ensures { result ≡ shr_s_of 32 a b }
{
    word32(signed32(a).wrapping_shr(b))
}

#[tactic(auto, using(crate::proofs::Rotations::rotl_is))]
fn rotl(a: u32, b: u32) -> u32
    ensures { result ≡ rotl_of 32 a b }
{
    a.rotate_left(b)
}

#[tactic(auto, using(crate::proofs::Rotations::rotr_is))]
fn rotr(a: u32, b: u32) -> u32
    ensures { result ≡ rotr_of 32 a b }
{
    a.rotate_right(b)
}

#[tactic(auto, using(crate::proofs::Counts::leading_zeros_is))]
fn clz(a: u32) -> u32
    ensures { result ≡ leading_zeros_of 32 a }
{
    a.leading_zeros()
}

#[tactic(auto, using(crate::proofs::Counts::trailing_zeros_is))]
fn ctz(a: u32) -> u32
    ensures { result ≡ trailing_zeros_of 32 a }
{
    a.trailing_zeros()
}

#[tactic(auto, using(crate::proofs::Counts::set_bits_is))]
fn popcnt(a: u32) -> u32
    ensures { result ≡ set_bits_of 32 a }
{
    a.count_ones()
}
