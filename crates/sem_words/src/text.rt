//! Bytes of a source text, such as names.
ghost use Rattle.std.specs.Prelude.{◌≡◌, IfOk};
ghost use Rattle.sem_words.specs.Lists.{text_bytes};

use std::alloc::{AllocError, Global};

/// A list of bytes that owns them. Nothing is said of their encoding.
#[derive(PartialEq, Eq, Debug, Drop)]
pub struct Text {
    bytes: Vec<u8>,
}

impl Text {
    /// A copy of the bytes.
    pub fn from_bytes(alloc: Global, bytes: &[u8]) -> Result<Text, AllocError>
        ensures { IfOk result (λ text. text_bytes text ≡ bytes.now) }
    {
        let bytes = Vec::from_slice(alloc, bytes)?;
        Ok(Text { bytes })
    }

    /// The bytes.
    pub fn as_bytes(&self) -> &[u8]
        ensures { result.now ≡ text_bytes self.now }
    {
        self.bytes.as_slice()
    }
}
