//! Why bytes are refused.
ghost use Rattle.wasm_binary.specs.Answers.{FaultIs};

use wasm_tree::{ReadError, Row};

/// The first field that can't be read: why, and the place of the field in the input. Or memory ran out.
#[derive(Clone, Copy, PartialEq, Eq, Debug)]
pub enum BinFault {
    Refused { row: Row, at: u64 },
    Memory,
}

/// The fault that the caller is given.
pub fn told(error: ReadError) -> BinFault
    ensures { FaultIs error result }
{
    match error {
        ReadError::Refused(fault) => BinFault::Refused {
            row: fault.row,
            at: fault.at as u64,
        },
        ReadError::Memory => BinFault::Memory,
    }
}
