//! A token, which lends its text from the source.

use crate::strings::StringText;

/// What a token is.
#[derive(Clone, Copy)]
pub enum Class<'a> {
    /// `(`.
    Opens,
    /// `)`.
    Closes,
    String(StringText<'a>),
    /// A word, a number or an id.
    Atom(&'a [u8]),
}

#[derive(Clone, Copy)]
pub struct Token<'a> {
    pub class: Class<'a>,
    /// The offset of its first byte.
    pub at: u64,
}
