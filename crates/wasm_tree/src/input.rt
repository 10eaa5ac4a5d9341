//! A place in the input, and the fields that stand at one.
ghost use Rattle.std.specs.Prelude.{◌≡◌, ◌+◌, ◌-◌, ◌<◌, ◌≤◌, ◌^◌, length, Ok, Err, IfOk, MatchResult};

use crate::leb::{integer, unsigned};
use wasm_lang::{Fault, NumberFault, Row, ValType};

/// The bytes from a place of the input on, up to the end of the part that is read.
#[derive(Clone, Copy)]
pub struct Input<'a> {
    pub at: usize,
    pub bytes: &'a [u8],
    ghost fits: { at + length bytes.now < 2 ^ 64 },
}

impl<'a> Input<'a> {
    ghost use Rattle.wasm_lang.specs.Reading as reading;
    ghost use Rattle.wasm_tree.specs.Inputs.{input_of, IsField, Continues};
    ghost use Rattle.wasm_tree.specs.Slices.{Inside, Stands};

    /// The whole input.
    pub fn new(bytes: &'a [u8]) -> Input<'a>
        ensures value { input_of result ≡ record { at = 0; bytes = bytes.now } }
        ensures follows { Stands result.at result.bytes 0 bytes.entry }
    {
        Input { at: 0, bytes }
    }

    /// The place where a field that isn't finished here is refused: the end of the input for
    /// `Truncated`, and else this place.
    pub fn place_past(self, row: Row) -> usize
        ensures { result ≡ reading.past row (input_of self.entry) }
    {
        match row {
            Row::Truncated => self.at + self.bytes.len(),
            _ => self.at,
        }
    }

    /// The next byte. Where there is none the fault has the row that is given.
    pub fn byte(self, row: Row) -> Result<(u8, Input<'a>), Fault>
        ensures value { IsField (λ b. b) result (reading.byte_field row (input_of self.entry)) }
        ensures follows { IfOk result (λ x. Continues x.1 self.entry) }
    {
        match self.bytes {
            [first, rest @ ..] => Ok((
                *first,
                Input {
                    at: self.at + 1,
                    bytes: rest,
                },
            )),
            [] => Err(Fault {
                row,
                at: self.place_past(row),
            }),
        }
    }

    /// The next byte, which can be no other.
    pub fn exactly(self, byte: u8) -> Result<Input<'a>, Fault>
        ensures value { MatchResult result (λ rest. reading.exactly byte (input_of self.entry) ≡ Ok (byte, input_of rest)) (λ fault. reading.exactly byte (input_of self.entry) ≡ Err fault) }
        ensures follows { IfOk result (λ rest. Continues rest self.entry) }
    {
        let (found, rest) = self.byte(Row::SectionSize)?;
        if found == byte {
            Ok(rest)
        } else {
            Err(Fault {
                row: Row::UnknownByte,
                at: self.at,
            })
        }
    }

    /// The next unsigned number of 32 bits. Where it isn't finished the fault has the row that is given.
    pub fn u32(self, row: Row) -> Result<(u32, Input<'a>), Fault>
        ensures value { IsField (λ n. n) result (reading.u32_field row (input_of self.entry)) }
        ensures follows { IfOk result (λ x. Continues x.1 self.entry) }
    {
        match unsigned(self.bytes, 32) {
            Ok((n, rest)) => Ok((n as u32, self.past(rest))),
            Err(NumberFault::Illegal) => Err(Fault {
                row: Row::Leb,
                at: self.at,
            }),
            Err(NumberFault::Ends) => Err(Fault {
                row,
                at: self.place_past(row),
            }),
        }
    }

    /// The next word of so many bits, spelled as a signed number, inside a section.
    pub fn integer(self, bits: u32) -> Result<(u64, Input<'a>), Fault>
        requires { (0 < bits) × (bits ≤ 64) }
        ensures bound { IfOk result (λ x. x.0 < 2 ^ bits) }
        ensures value { IsField (λ n. n) result (reading.integer bits (input_of self.entry)) }
        ensures follows { IfOk result (λ x. Continues x.1 self.entry) }
    {
        match integer(self.bytes, bits) {
            Ok((word, rest)) => Ok((word, self.past(rest))),
            Err(NumberFault::Illegal) => Err(Fault {
                row: Row::Leb,
                at: self.at,
            }),
            Err(NumberFault::Ends) => Err(Fault {
                row: Row::SectionSize,
                at: self.at,
            }),
        }
    }

    /// The next value type, inside a section.
    pub fn val_type(self) -> Result<(ValType, Input<'a>), Fault>
        ensures value { IsField (λ t. t) result (reading.val_type_field (input_of self.entry)) }
        ensures follows { IfOk result (λ x. Continues x.1 self.entry) }
    {
        let (byte, rest) = self.byte(Row::SectionSize)?;
        match byte {
            0x7f => Ok((ValType::I32, rest)),
            0x7e => Ok((ValType::I64, rest)),
            0x7d => Err(self.refused(Row::Float)),
            0x7c => Err(self.refused(Row::Float)),
            _ => Err(self.refused(Row::UnknownByte)),
        }
    }

    /// The next block type, inside a section.
    pub fn block_type(self) -> Result<(Option<ValType>, Input<'a>), Fault>
        ensures value { IsField (λ t. t) result (reading.block_type_field (input_of self.entry)) }
        ensures follows { IfOk result (λ x. Continues x.1 self.entry) }
    {
        let (byte, rest) = self.byte(Row::SectionSize)?;
        match byte {
            0x40 => Ok((None, rest)),
            0x7f => Ok((Some(ValType::I32), rest)),
            0x7e => Ok((Some(ValType::I64), rest)),
            0x7d => Err(self.refused(Row::Float)),
            0x7c => Err(self.refused(Row::Float)),
            _ => Err(self.refused(Row::UnknownByte)),
        }
    }

    // The input after a field, where these bytes are left.
    fn past(self, rest: &'a [u8]) -> Input<'a>
        requires shorter { length rest.now ≤ length self.bytes.now }
        requires inside { Inside rest self.bytes }
        requires ends { rest.ref_ptr.1 + length rest.now ≡ self.bytes.ref_ptr.1 + length self.bytes.now }
        ensures value { input_of result ≡ record { at = self.entry.at + (length self.entry.bytes.now - length rest.now); bytes = rest.now } }
        ensures follows { Continues result self.entry }
    {
        Input {
            at: self.at + (self.bytes.len() - rest.len()),
            bytes: rest,
        }
    }

    // A fault at this place.
    fn refused(self, row: Row) -> Fault
        ensures { result ≡ record { row = row; at = self.entry.at } }
    {
        Fault { row, at: self.at }
    }
}
