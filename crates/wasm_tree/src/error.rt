//! Why reading stops.

use thiserror::Error;
use wasm_lang::Fault;

/// The first field that can't be read, or want of memory.
#[derive(Clone, Copy, PartialEq, Eq, Debug, Error)]
pub enum ReadError {
    #[error("a field can't be read")]
    Refused(Fault),
    #[error("out of memory")]
    Memory,
}

impl From<Fault> for ReadError {
    ghost use Rattle.std.specs.Prelude.{◌≡◌};
    ghost use Rattle.wasm_tree.specs.declared.error.ReadError.TheVariants.{Refused};

    ghost from_gives = { λ fault error. error ≡ Refused fault };

    fn from(fault: Fault) -> ReadError {
        ReadError::Refused(fault)
    }
}
