//! Why a text is refused.
ghost use Rattle.std.specs.Prelude.{◌≡◌};
ghost use Rattle.cmd_wat2wasm.specs.Faults.{of_wat};

use cmd_check_wasm::CheckFault;
use thiserror::Error;
use wat_lang::Row;
use wat_marks::WatFault;

/// Why a text is refused, or want of memory.
#[derive(Clone, Copy, PartialEq, Eq, Debug, Error)]
pub enum TextFault {
    /// It says no module: why, and the offset in bytes.
    #[error("no module in the text form")]
    Unsaid { row: Row, at: u64 },
    /// Its module isn't valid, or memory ran out.
    #[error("not a valid module")]
    Check(CheckFault),
}

/// The fault of a text that says no module.
pub(crate) fn of_wat(fault: WatFault) -> TextFault
    ensures { result ≡ of_wat fault }
{
    match fault {
        WatFault::Refused { row, at } => TextFault::Unsaid { row, at },
        WatFault::Memory => TextFault::Check(CheckFault::Memory),
    }
}
