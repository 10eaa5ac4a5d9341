//! Operators on words.
ghost use Rattle.std.specs.Prelude.{◌≡◌};
ghost use Rattle.asm_run_code.specs.declared.op.Operator.TheVariants as operators;
ghost use Rattle.sem_words.specs.Words.{sub_of, leading_zeros_of};
ghost use Rattle.asm_run_code.specs.Operators as code;

use asm_run_code::Operator;
use sem_words::{Un, signed32, un32, word32};

/// What the operator makes of two words.
#[inline(always)]
pub fn word_op(operator: Operator, a: u32, b: u32) -> u32
    ensures { result ≡ code.word_op operator a b }
{
    match operator {
        Operator::Add => a.wrapping_add(b),
        Operator::Sub => a.wrapping_sub(b),
        Operator::Mul => a.wrapping_mul(b),
        Operator::And => a & b,
        Operator::Or => a | b,
        Operator::Xor => a ^ b,
        Operator::Shl => a.wrapping_shl(b),
        Operator::ShrS => word32(signed32(a).wrapping_shr(b)),
        Operator::ShrU => a.wrapping_shr(b),
        Operator::QuotientS => quotient_s(a, b),
        Operator::QuotientU => quotient_u(a, b),
        Operator::RestS => rest_s(a, b),
        Operator::RestU => rest_u(a, b),
        Operator::Eq => u32::from(a == b),
        Operator::Ne => u32::from(a != b),
        Operator::LtS => u32::from(signed32(a) < signed32(b)),
        Operator::LtU => u32::from(a < b),
        Operator::LeS => u32::from(signed32(a) <= signed32(b)),
        Operator::LeU => u32::from(a <= b),
        Operator::GtS => u32::from(signed32(a) > signed32(b)),
        Operator::GtU => u32::from(a > b),
        Operator::GeS => u32::from(signed32(a) >= signed32(b)),
        Operator::GeU => u32::from(a >= b),
    }
}

// By 0 it is 0, and by -1 it is the negation, which wraps at the least number: both are the product.
fn quotient_s(a: u32, b: u32) -> u32
    ensures { result ≡ code.word_op operators.QuotientS a b }
{
    if b.wrapping_add(1) > 1 {
        word32(signed32(a) / signed32(b))
    } else {
        a.wrapping_mul(b)
    }
}

fn quotient_u(a: u32, b: u32) -> u32
    ensures { result ≡ code.word_op operators.QuotientU a b }
{
    if b == 0 { 0 } else { a / b }
}

fn rest_s(a: u32, b: u32) -> u32
    ensures { result ≡ code.word_op operators.RestS a b }
{
    if b == 0 {
        0
    } else {
        word32(signed32(a).wrapping_rem(signed32(b)))
    }
}

fn rest_u(a: u32, b: u32) -> u32
    ensures { result ≡ code.word_op operators.RestU a b }
{
    if b == 0 { 0 } else { a % b }
}

/// The word of the negated number.
#[inline(always)]
pub fn negated(a: u32) -> u32
    ensures { result ≡ sub_of 32 0 a }
{
    0u32.wrapping_sub(a)
}

/// The word with each bit turned over.
#[inline(always)]
pub fn complement(a: u32) -> u32
    ensures { result ≡ sub_of 32 4294967295 a }
{
    u32::MAX.wrapping_sub(a)
}

/// How many bits stand above the highest that is set.
#[inline(always)]
pub fn zeros(a: u32) -> u32
    ensures { result ≡ leading_zeros_of 32 a }
{
    un32(Un::Clz, a)
}
