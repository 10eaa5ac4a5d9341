//! A token, which lends its text from the source.

/// What kind a token is of.
#[derive(Clone, Copy, Debug, PartialEq, Eq)]
pub enum TokenKind {
    /// A name or a reserved word.
    Name,
    /// A decimal or hexadecimal number, with its value.
    Number(u64),
    /// A number with a dot.
    Decimal,
    /// A text in single or double quotes.
    Quoted,
    /// A punctuator.
    Punct,
}

#[derive(Clone, Copy, Debug)]
pub struct Token<'a> {
    pub kind: TokenKind,
    /// The token's bytes, quotes included.
    pub text: &'a [u8],
    /// The offset of its first byte.
    pub at: u64,
    /// Whether a line feed or a carriage return stands between it and the token before it, or before it if it is the first.
    pub line_before: bool,
}
