// Why two modules aren't linked.

use std::alloc::AllocError;
use thiserror::Error;
use wasm_link_lang::Refused;

/// The first row that a pair meets, or want of memory.
#[derive(Clone, Copy, PartialEq, Eq, Debug, Error)]
pub enum LinkFault {
    #[error("the modules can't be linked")]
    Refused(Refused),
    #[error("out of memory")]
    Memory,
}

impl From<AllocError> for LinkFault {
    ghost use Rattle.std.specs.Prelude.{◌≡◌};
    ghost use Rattle.wasm_link_rows.specs.declared.fault.LinkFault.TheVariants.{Memory};

    ghost from_gives = { λ fault error. error ≡ Memory };

    fn from(_fault: AllocError) -> LinkFault {
        LinkFault::Memory
    }
}
