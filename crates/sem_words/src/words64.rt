//! The operators on 64-bit words (WebAssembly Core 1.0, section 4.3.2).
ghost use Rattle.std.specs.Prelude.{◌≡◌};
ghost use Rattle.sem_words.specs.Words.{bin_of, div_s_of, div_u_of, leading_zeros_of, rel_of, rem_s_of, rem_u_of, rotl_of, rotr_of, set_bits_of, shl_of, shr_s_of, shr_u_of, trailing_zeros_of, un_of};

use crate::signed::{signed64, word64};
use crate::word::{Bin, Rel, TrapKind, Un};

const LEAST: u64 = 1 << 63;

const MINUS_ONE: u64 = u64::MAX;

/// The operator on two words, or why it traps: `ZeroDivisor` exactly for the four quotients and
/// remainders by 0, and `Overflow` exactly for the signed quotient of the least number by -1.
pub fn bin64(op: Bin, a: u64, b: u64) -> Result<u64, TrapKind>
    ensures { result ≡ bin_of 64 op a b }
{
    match op {
        Bin::Add => Ok(a.wrapping_add(b)),
        Bin::Sub => Ok(a.wrapping_sub(b)),
        Bin::Mul => Ok(a.wrapping_mul(b)),
        Bin::DivS => div_s(a, b),
        Bin::DivU => div_u(a, b),
        Bin::RemS => rem_s(a, b),
        Bin::RemU => rem_u(a, b),
        Bin::And => Ok(a & b),
        Bin::Or => Ok(a | b),
        Bin::Xor => Ok(a ^ b),
        Bin::Shl => Ok(shl(a, b)),
        Bin::ShrS => Ok(shr_s(a, b)),
        Bin::ShrU => Ok(shr_u(a, b)),
        Bin::Rotl => Ok(rotl(a, b)),
        Bin::Rotr => Ok(rotr(a, b)),
    }
}

/// The operator on one word.
pub fn un64(op: Un, a: u64) -> u64
    ensures { result ≡ un_of 64 op a }
{
    match op {
        Un::Clz => clz(a),
        Un::Ctz => ctz(a),
        Un::Popcnt => popcnt(a),
    }
}

/// Whether the comparison holds.
pub fn rel64(op: Rel, a: u64, b: u64) -> bool
    ensures { result ≡ rel_of 64 op a b }
{
    match op {
        Rel::Eq => a == b,
        Rel::Ne => a != b,
        Rel::LtS => signed64(a) < signed64(b),
        Rel::LtU => a < b,
        Rel::GtS => signed64(a) > signed64(b),
        Rel::GtU => a > b,
        Rel::LeS => signed64(a) <= signed64(b),
        Rel::LeU => a <= b,
        Rel::GeS => signed64(a) >= signed64(b),
        Rel::GeU => a >= b,
    }
}

fn div_u(a: u64, b: u64) -> Result<u64, TrapKind>
    ensures { result ≡ div_u_of a b }
{
    if b == 0 {
        Err(TrapKind::ZeroDivisor)
    } else {
        Ok(a / b)
    }
}

fn rem_u(a: u64, b: u64) -> Result<u64, TrapKind>
    ensures { result ≡ rem_u_of a b }
{
    if b == 0 {
        Err(TrapKind::ZeroDivisor)
    } else {
        Ok(a % b)
    }
}

fn div_s(a: u64, b: u64) -> Result<u64, TrapKind>
    ensures { result ≡ div_s_of 64 a b }
{
    if b == 0 {
        Err(TrapKind::ZeroDivisor)
    } else if a == LEAST && b == MINUS_ONE {
        Err(TrapKind::Overflow)
    } else {
        Ok(word64(signed64(a) / signed64(b)))
    }
}

fn rem_s(a: u64, b: u64) -> Result<u64, TrapKind>
    ensures { result ≡ rem_s_of 64 a b }
{
    if b == 0 {
        Err(TrapKind::ZeroDivisor)
    } else {
        Ok(word64(signed64(a).wrapping_rem(signed64(b))))
    }
}

fn shl(a: u64, b: u64) -> u64
    ensures { result ≡ shl_of 64 a b }
{
    a.wrapping_shl((b % 64) as u32)
}

fn shr_u(a: u64, b: u64) -> u64
    ensures { result ≡ shr_u_of 64 a b }
{
    a.wrapping_shr((b % 64) as u32)
}

fn shr_s(a: u64, b: u64) -> u64
    ensures { result ≡ shr_s_of 64 a b }
{
    word64(signed64(a).wrapping_shr((b % 64) as u32))
}

#[tactic(auto, using(crate::proofs::Rotations::rotl_is))]
fn rotl(a: u64, b: u64) -> u64
    ensures { result ≡ rotl_of 64 a b }
{
    a.rotate_left((b % 64) as u32)
}

#[tactic(auto, using(crate::proofs::Rotations::rotr_is))]
fn rotr(a: u64, b: u64) -> u64
    ensures { result ≡ rotr_of 64 a b }
{
    a.rotate_right((b % 64) as u32)
}

#[tactic(auto, using(crate::proofs::Counts::leading_zeros_is))]
fn clz(a: u64) -> u64
    ensures { result ≡ leading_zeros_of 64 a }
{
    u64::from(a.leading_zeros())
}

#[tactic(auto, using(crate::proofs::Counts::trailing_zeros_is))]
fn ctz(a: u64) -> u64
    ensures { result ≡ trailing_zeros_of 64 a }
{
    u64::from(a.trailing_zeros())
}

#[tactic(auto, using(crate::proofs::Counts::set_bits_is))]
fn popcnt(a: u64) -> u64
    ensures { result ≡ set_bits_of 64 a }
{
    u64::from(a.count_ones())
}
