//! Why no module is read from a text.

ghost use Rattle.std.specs.Prelude.{◌≡◌};
ghost use Rattle.wat_marks.specs.declared.fault.WatFault.TheVariants.{Memory};

use std::alloc::{AllocError, AllocFailed};
use wat_lang::Row;

/// Why no module is read from a text.
#[derive(Clone, Copy, Debug)]
pub enum WatFault {
    /// The text says no module: the row that refuses it, and the offset of its place.
    Refused { row: Row, at: u64 },
    /// Memory ran out.
    Memory,
}

impl From<AllocError> for WatFault {
    ghost from_gives = { λ _ e. e ≡ Memory };

    fn from(_e: AllocError) -> WatFault {
        WatFault::Memory
    }
}

impl<T: Drop> From<AllocFailed<T>> for WatFault {
    ghost from_gives = { λ _ e. e ≡ Memory };

    fn from(_e: AllocFailed<T>) -> WatFault {
        WatFault::Memory
    }
}
