//! Immediates.

ghost use Rattle.std.specs.Prelude.{◌≡◌, [], option_map, pos, unwrap_or, true};
ghost use Rattle.wat_lang.specs.Modules as spec;
ghost use Rattle.wat_lang.specs.Rows.{number_rows};
ghost use Rattle.wat_read_tokens.specs.Marks.{marks_of};
ghost use Rattle.wat_read_tokens.specs.Wanted.{test_of};
ghost use Rattle.wat_read_bodies.specs.Naturals.{is_natural};

use wasm_lang::{MemOp, ValType};
use wat_marks::MarkedToken;
use wat_read_tokens::{
    Wanted, atom, behind_key, exponent_in, exponent_of, first, natural_in, value_type, whole_in,
};

/// The natural number that a minimum or a maximum writes, if there is one.
pub fn optional_by(wanted: Wanted, parts: &[MarkedToken<'_>]) -> Option<u32>
    requires natural { is_natural wanted ≡ true }
    requires fits { number_rows (marks_of parts.now) ≡ [] }
    ensures { option_map pos result ≡ spec.number_in (test_of wanted) (marks_of parts.now) }
{
    match first(parts, wanted) {
        Some(token) => natural_in(atom(token)),
        None => None,
    }
}

/// The natural number that a minimum or a maximum writes, or 0.
pub fn natural_by(wanted: Wanted, parts: &[MarkedToken<'_>]) -> u32
    requires natural { is_natural wanted ≡ true }
    requires fits { number_rows (marks_of parts.now) ≡ [] }
    ensures { result ≡ spec.natural_or_0 (spec.number_in (test_of wanted) (marks_of parts.now)) }
{
    match optional_by(wanted, parts) {
        Some(number) => number,
        None => 0,
    }
}

/// The type of the result of a block.
pub fn block_type(parts: &[MarkedToken<'_>]) -> Option<ValType>
    ensures { result ≡ spec.block_type (marks_of parts.now) }
{
    match first(parts, Wanted::BlockResult) {
        Some(token) => Some(value_type(token)),
        None => None,
    }
}

/// The exponent of an alignment that is written, or of the natural one, if that is a power of two.
fn exponent_by(op: MemOp, parts: &[MarkedToken<'_>]) -> Option<u32>
    ensures { unwrap_or result 0 ≡ spec.align_in op (marks_of parts.now) }
{
    match first(parts, Wanted::Alignment) {
        Some(token) => exponent_in(behind_key(atom(token), b"align=")),
        None => exponent_of(u64::from(op.size)),
    }
}

/// The exponent of the alignment.
pub fn align_in(op: MemOp, parts: &[MarkedToken<'_>]) -> u32
    ensures { result ≡ spec.align_in op (marks_of parts.now) }
{
    match exponent_by(op, parts) {
        Some(exponent) => exponent,
        None => 0,
    }
}

/// The offset that is written, or 0.
pub fn offset_in(parts: &[MarkedToken<'_>]) -> u32
    requires { number_rows (marks_of parts.now) ≡ [] }
    ensures { result ≡ spec.offset_in (marks_of parts.now) }
{
    match first(parts, Wanted::Offset) {
        Some(token) => match natural_in(behind_key(atom(token), b"offset=")) {
            Some(number) => number,
            None => 0,
        },
        None => 0,
    }
}

/// The number of a constant.
pub fn whole(parts: &[MarkedToken<'_>]) -> i128
    requires { number_rows (marks_of parts.now) ≡ [] }
    ensures { result ≡ unwrap_or (spec.number_in spec.is_word (marks_of parts.now)) (pos 0) }
{
    match first(parts, Wanted::Word) {
        Some(token) => match whole_in(atom(token)) {
            Some(number) => number,
            None => 0,
        },
        None => 0,
    }
}
