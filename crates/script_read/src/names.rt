//! The names and bytes of a script.

ghost use Rattle.std.specs.Prelude.{◌≡◌, option_map, IfOk};
ghost use Rattle.std.specs.List.{list_all};
ghost use Rattle.sem_words.specs.Lists.{text_bytes};
ghost use Rattle.script_lang.specs.Names as spec;

use hex::FromHexError;
use sem_words::Text;
use std::alloc::{AllocError, Global};

/// The bytes that hex digits spell, two for each byte, at least one byte.
pub fn bytes(alloc: Global, word: &[u8]) -> Result<Option<Text>, AllocError>
    ensures { IfOk result (λ t. option_map text_bytes t ≡ spec.bytes_of word.now) }
{
    if word.is_empty() {
        return Ok(None);
    }
    match hex::decode(alloc, word) {
        Ok(bytes) => {
            let text = Text::from_bytes(alloc, bytes.as_slice())?;
            Ok(Some(text))
        }
        Err(FromHexError::OutOfMemory) => Err(AllocError),
        Err(_) => Ok(None),
    }
}

fn is_visible(byte: u8) -> bool
    ensures { result ≡ spec.is_visible byte }
{
    (b'!'..=b'~').contains(&byte)
}

fn all_visible(word: &[u8]) -> bool
    ensures { result ≡ list_all spec.is_visible word.now }
{
    word.iter().all(|byte| is_visible(*byte))
}

/// A name: visible ASCII as it stands, or `%` and the hex digits of its bytes, of which there may be none.
pub fn name(alloc: Global, word: &[u8]) -> Result<Option<Text>, AllocError>
    ensures { IfOk result (λ t. option_map text_bytes t ≡ spec.name_of word.now) }
{
    match word {
        [] => Ok(None),
        [b'%'] => Ok(Some(Text::from_bytes(alloc, b"")?)),
        [b'%', digits @ ..] => bytes(alloc, digits),
        _ if all_visible(word) => Ok(Some(Text::from_bytes(alloc, word)?)),
        _ => Ok(None),
    }
}
