//! Why a text says no module.

ghost use Rattle.std.specs.Prelude.{◌≡◌};
ghost use Rattle.asm_text.specs.Places.{of_parsing, of_reading};

use asm_grammar::ParseFault;
use js_tokens::TokenFault;

/// The first fault of a text, and its offset in bytes.
#[derive(Clone, Copy, Debug, PartialEq, Eq, Drop, thiserror::Error)]
pub enum TextFault {
    #[error("a byte above 7F, or a line separator in a comment, at {at}")]
    NonAscii { at: u64 },
    #[error("no token begins at {at}")]
    BadToken { at: u64 },
    #[error("no end of the comment at {at}")]
    OpenComment { at: u64 },
    /// A number of a faulty form, or a prefix `-` directly before a number of value 0, at the `-`.
    #[error("a faulty number at {at}")]
    LiteralForm { at: u64 },
    /// No module begins with the tokens up to this one. At the end of input it is the text's length.
    #[error("no module goes on with the token at {at}")]
    Grammar { at: u64 },
    /// The directive `use asm` does not stand here, right after the heading.
    #[error("no use asm at {at}")]
    NoUseAsm { at: u64 },
    /// With this token a node of height 1,001 is complete.
    #[error("a node above the height of 1,000 ends at {at}")]
    Height { at: u64 },
    #[error("out of memory")]
    Memory,
}

/// A fault of the tokenizer.
pub fn of_reading(fault: TokenFault) -> TextFault
    ensures { result ≡ of_reading fault }
{
    match fault {
        TokenFault::NonAscii { at } => TextFault::NonAscii { at },
        TokenFault::BadToken { at } => TextFault::BadToken { at },
        TokenFault::OpenComment { at } => TextFault::OpenComment { at },
        TokenFault::LiteralForm { at } => TextFault::LiteralForm { at },
        TokenFault::Memory => TextFault::Memory,
    }
}

/// A fault of the parser.
pub fn of_parsing(fault: ParseFault) -> TextFault
    ensures { result ≡ of_parsing fault }
{
    match fault {
        ParseFault::LiteralForm { at } => TextFault::LiteralForm { at },
        ParseFault::Grammar { at } => TextFault::Grammar { at },
        ParseFault::NoUseAsm { at } => TextFault::NoUseAsm { at },
        ParseFault::Height { at } => TextFault::Height { at },
        ParseFault::Memory => TextFault::Memory,
    }
}
