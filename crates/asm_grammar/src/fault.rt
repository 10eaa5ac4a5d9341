//! Why tokens are no module.

ghost use Rattle.std.specs.Prelude.{◌≡◌};
ghost use Rattle.asm_grammar.specs.declared.fault.ParseFault.TheVariants.{Memory};

use std::alloc::AllocError;

/// Why tokens are no module, with the offset of the token that has the fault.
#[derive(Clone, Copy, Debug, PartialEq, Eq, Drop, thiserror::Error)]
pub enum ParseFault {
    /// A prefix `-` directly before a number of value 0.
    #[error("literal form at {at}")]
    LiteralForm { at: u64 },
    /// No module begins with the tokens up to this one. At the end of input it is the end of the text.
    #[error("grammar at {at}")]
    Grammar { at: u64 },
    /// The directive `use asm` does not stand here, right after the heading.
    #[error("no use asm at {at}")]
    NoUseAsm { at: u64 },
    /// Here a node of height 1,001 is complete.
    #[error("height at {at}")]
    Height { at: u64 },
    #[error("out of memory")]
    Memory,
}

impl From<AllocError> for ParseFault {
    ghost from_gives = { λ _ e. e ≡ Memory };

    fn from(_e: AllocError) -> ParseFault {
        ParseFault::Memory
    }
}
