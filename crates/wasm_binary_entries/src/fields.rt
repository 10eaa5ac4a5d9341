//! Fields of a few bytes.
ghost use Rattle.std.specs.Prelude.{◌≡◌, ◌+◌, ◌≤◌, true, false, nat_le, length, take, drop, IfOk, MatchResult, Ok, Err};
ghost use Rattle.std.specs.Str.{is_utf8};
ghost use Rattle.wasm_lang.specs.Reading as reading;
ghost use Rattle.wasm_lang.specs.ReadingModule as modules;
ghost use Rattle.wasm_tree.specs.Inputs.{input_of, IsField, Continues};
ghost use Rattle.wasm_tree.specs.Slices.{Stands};
ghost use Rattle.wasm_tree.specs.Views.{bytes_of};
ghost use Rattle.wasm_binary_entries.specs.Kinds.{maximum_field};
ghost use Rattle.wasm_binary_entries.specs.Lent.{source_of, IsLent, Located};
ghost use Rattle.wasm_binary_entries.specs.Places.{counted_place};

use std::str;
use wasm_tree::{Bytes, Fault, GlobalType, Input, Limits, Row};

// The most entries of a table's minimum that this reader takes.
const MOST_ENTRIES: usize = 1_048_576;

/// A number inside a section.
pub fn number<'a>(input: Input<'a>) -> Result<(u32, Input<'a>), Fault>
    ensures value { IsField (λ n. n) result (reading.u32 (input_of input.entry)) }
    ensures follows { IfOk result (λ x. Continues x.1 input.entry) }
{
    input.u32(Row::SectionSize)
}

/// Whether so many more are within a limit.
pub fn within(used: usize, more: usize, limit: usize) -> bool
    ensures { result ≡ nat_le (used + more) limit }
{
    used <= limit && more <= limit - used
}

/// A count that is within what is left of a limit.
pub fn count<'a>(input: Input<'a>, used: usize, limit: usize) -> Result<(u32, Input<'a>), Fault>
    ensures value { IsField (λ n. n) result (reading.count_field used limit (input_of input.entry)) }
    ensures follows { IfOk result (λ x. Continues x.1 input.entry) }
    ensures within { IfOk result (λ x. used + x.0 ≤ limit) }
{
    let (n, rest) = number(input)?;
    if within(used, n as usize, limit) {
        Ok((n, rest))
    } else {
        Err(Fault {
            row: Row::Limit,
            at: input.at,
        })
    }
}

/// The next bytes, so many, and what follows them.
pub fn split<'a>(input: Input<'a>, size: usize) -> (&'a [u8], Input<'a>)
    requires { size ≤ length input.bytes.now }
    ensures front { result.0.now ≡ take size input.entry.bytes.now }
    ensures rest { input_of result.1 ≡ record { at = input.entry.at + size; bytes = drop size input.entry.bytes.now } }
    ensures lent { Stands input.entry.at result.0 input.entry.at input.entry.bytes }
    ensures follows { Continues result.1 input.entry }
{
    (
        &input.bytes[..size],
        Input {
            at: input.at + size,
            bytes: &input.bytes[size..],
        },
    )
}

// Bytes after their count.
fn counted<'a>(input: Input<'a>) -> Result<(&'a [u8], Input<'a>), Fault>
    ensures value { MatchResult result (λ x. reading.bytes_field (input_of input.entry) ≡ Ok (x.0.now, input_of x.1)) (λ fault. reading.bytes_field (input_of input.entry) ≡ Err fault) }
    ensures follows { IfOk result (λ x. Continues x.1 input.entry) }
    ensures lent { IfOk result (λ x. Located (counted_place (input_of input.entry)) (input_of x.1) (λ place. Stands place x.0 input.entry.at input.entry.bytes)) }
{
    let (n, rest) = number(input)?;
    if n as usize <= rest.bytes.len() {
        Ok(split(rest, n as usize))
    } else {
        Err(Fault {
            row: Row::SectionSize,
            at: rest.at,
        })
    }
}

/// Bytes after their count, lent from the input.
pub fn bytes<'a>(input: Input<'a>) -> Result<(Bytes<'a>, Input<'a>), Fault>
    ensures value { IsField bytes_of result (reading.bytes_field (input_of input.entry)) }
    ensures follows { IfOk result (λ x. Continues x.1 input.entry) }
    ensures lent { IfOk result (λ x. Located (counted_place (input_of input.entry)) (input_of x.1) (λ place. IsLent (source_of input.entry) place x.0)) }
{
    let (bytes, rest) = counted(input)?;
    Ok((Bytes::Lent(bytes), rest))
}

// Whether bytes are UTF-8.
fn is_text(bytes: &[u8]) -> bool
    ensures { result ≡ is_utf8 bytes.now }
{
    match str::from_utf8(bytes) {
        Ok(_) => true,
        Err(_) => false,
    }
}

/// A name, lent from the input.
pub fn name<'a>(input: Input<'a>) -> Result<(Bytes<'a>, Input<'a>), Fault>
    ensures value { IsField bytes_of result (reading.name_field (input_of input.entry)) }
    ensures follows { IfOk result (λ x. Continues x.1 input.entry) }
    ensures lent { IfOk result (λ x. Located (counted_place (input_of input.entry)) (input_of x.1) (λ place. IsLent (source_of input.entry) place x.0)) }
{
    let (n, rest) = number(input)?;
    if n as usize > rest.bytes.len() {
        return Err(Fault {
            row: Row::SectionSize,
            at: rest.at,
        });
    }
    let (name, after) = split(rest, n as usize);
    if is_text(name) {
        Ok((Bytes::Lent(name), after))
    } else {
        Err(Fault {
            row: Row::Utf8,
            at: rest.at,
        })
    }
}

/// A byte 0 or 1.
pub fn flag<'a>(input: Input<'a>) -> Result<(bool, Input<'a>), Fault>
    ensures value { IsField (λ f. f) result (modules.flag_field (input_of input.entry)) }
    ensures follows { IfOk result (λ x. Continues x.1 input.entry) }
{
    let (byte, rest) = input.byte(Row::SectionSize)?;
    match byte {
        0x00 => Ok((false, rest)),
        0x01 => Ok((true, rest)),
        _ => Err(Fault {
            row: Row::UnknownByte,
            at: input.at,
        }),
    }
}

// The limits of a minimum, and of a maximum where there is one more.
fn limits<'a>(input: Input<'a>, more: bool, min: u32) -> Result<(Limits, Input<'a>), Fault>
    ensures value { IsField (λ l. l) result (maximum_field more min (input_of input.entry)) }
    ensures follows { IfOk result (λ x. Continues x.1 input.entry) }
{
    if !more {
        return Ok((Limits { min, max: None }, input));
    }
    let (max, rest) = number(input)?;
    let max = Some(max);
    Ok((Limits { min, max }, rest))
}

/// The limits of a memory.
pub fn memory<'a>(input: Input<'a>) -> Result<(Limits, Input<'a>), Fault>
    ensures value { IsField (λ l. l) result (modules.memory_field (input_of input.entry)) }
    ensures follows { IfOk result (λ x. Continues x.1 input.entry) }
{
    let (more, rest) = flag(input)?;
    let (min, rest) = number(rest)?;
    limits(rest, more, min)
}

/// The limits of a table.
pub fn table<'a>(input: Input<'a>) -> Result<(Limits, Input<'a>), Fault>
    ensures value { IsField (λ l. l) result (modules.table_field (input_of input.entry)) }
    ensures follows { IfOk result (λ x. Continues x.1 input.entry) }
{
    let rest = input.exactly(0x70)?;
    let (more, rest) = flag(rest)?;
    let (min, rest) = count(rest, 0, MOST_ENTRIES)?;
    limits(rest, more, min)
}

/// The type of a global.
pub fn global_type<'a>(input: Input<'a>) -> Result<(GlobalType, Input<'a>), Fault>
    ensures value { IsField (λ t. t) result (modules.global_type_field (input_of input.entry)) }
    ensures follows { IfOk result (λ x. Continues x.1 input.entry) }
{
    let (kind, rest) = input.val_type()?;
    let (mutable, rest) = flag(rest)?;
    Ok((GlobalType { kind, mutable }, rest))
}

/// Nothing is left of a part.
pub fn nothing_left(input: Input<'_>) -> Result<(), Fault>
    ensures { MatchResult result (λ x. reading.nothing_left (input_of input.entry) ≡ Ok tt) (λ fault. reading.nothing_left (input_of input.entry) ≡ Err fault) }
{
    if input.bytes.is_empty() {
        Ok(())
    } else {
        Err(Fault {
            row: Row::SectionSize,
            at: input.at,
        })
    }
}

/// These bytes, and the row of one that differs.
pub fn expected<'a>(input: Input<'a>, bytes: &[u8], row: Row) -> Result<Input<'a>, Fault>
    ensures value { MatchResult result (λ rest. modules.header_field row bytes.now (input_of input.entry) ≡ Ok (input_of rest)) (λ fault. modules.header_field row bytes.now (input_of input.entry) ≡ Err fault) }
    ensures follows { IfOk result (λ rest. Continues rest input.entry) }
{
    let mut rest = input;
    for byte in bytes {
        let (found, after) = rest.byte(Row::Truncated)?;
        if found != *byte {
            return Err(Fault { row, at: rest.at });
        }
        rest = after;
    }
    Ok(rest)
}
