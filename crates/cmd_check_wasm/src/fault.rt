//! Why bytes are refused.
ghost use Rattle.std.specs.Prelude.{◌≡◌};
ghost use Rattle.cmd_check_wasm.specs.Faults as spec;

use thiserror::Error;
use wasm_binary::{BinFault, Row};
use wasm_validate::{Invalid, Rule, Section};

/// Why bytes are refused, or want of memory.
#[derive(Clone, Copy, PartialEq, Eq, Debug, Error)]
pub enum CheckFault {
    /// They aren't of the binary format: why, and the offset in bytes.
    #[error("not in the binary format")]
    Binary {
        row: Row,
        at: u64,
    },
    /// Their module isn't valid: the rule that is broken first, the section, the number of the item in it and, in code,
    /// the number of the instruction in its body, else 0.
    #[error("not valid")]
    Invalid {
        rule: Rule,
        section: Section,
        index: u64,
        instruction: u64,
    },
    #[error("out of memory")]
    Memory,
}

/// The fault of bytes that aren't of the binary format.
pub(crate) fn of_binary(fault: BinFault) -> CheckFault
    ensures { result ≡ spec.of_binary fault }
{
    match fault {
        BinFault::Refused { row, at } => CheckFault::Binary { row, at },
        BinFault::Memory => CheckFault::Memory,
    }
}

/// The fault of a module that isn't valid.
pub fn of_invalid(invalid: Invalid) -> CheckFault
    ensures { result ≡ spec.of_invalid invalid }
{
    match invalid {
        Invalid::Rule {
            rule,
            section,
            index,
            instruction,
        } => CheckFault::Invalid {
            rule,
            section,
            index: index as u64,
            instruction: instruction as u64,
        },
        Invalid::Memory => CheckFault::Memory,
    }
}
