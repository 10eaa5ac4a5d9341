//! A text that is being written, token by token.

ghost use Rattle.std.specs.Prelude.{◌≡◌, ◌<◌, [], ◌∷◌, ◌++◌, OnOk, decimal};
ghost use Rattle.std.specs.List.{flat_map};
ghost use Rattle.std.specs.Fmt.{signed_decimal};
ghost use Rattle.wat_lang.specs.Tokens.{opens, closes, string};
ghost use Rattle.wat_lang.specs.Words.{of_type};
ghost use Rattle.wat_lang.specs.Printing as printing;
ghost use Rattle.wat_lang.specs.Printing.{token, line_end, word, number, byte_text, space_if};
ghost use Rattle.wat_print.specs.Put.{written, at_start, put};

use itoa::Buffer;
use std::alloc::{AllocError, Global};

/// The bytes so far, and whether the next token stands a space apart from what was last written.
#[derive(Drop)]
pub struct Output {
    bytes: Vec<u8>,
    apart: bool,
}

impl Output {
    pub fn new(alloc: Global) -> Output
        ensures { written result ≡ at_start }
    {
        Output {
            bytes: Vec::new(alloc),
            apart: false,
        }
    }

    /// Writes the space before a token, if there has to be one.
    fn space(&mut self) -> Result<(), AllocError>
        ensures bytes { OnOk result (self.new.bytes.items ≡ self.old.bytes.items ++ space_if self.old.apart) }
    {
        if self.apart {
            self.bytes.push(b' ')?;
        }
        Ok(())
    }

    /// Writes `(` and a keyword.
    pub fn open(&mut self, keyword: &[u8]) -> Result<(), AllocError>
        ensures { OnOk result (written self.new ≡ put (written self.old) (token opens ∷ word keyword.now ∷ [])) }
    {
        self.parenthesis()?;
        self.word(keyword)
    }

    /// Writes `(`.
    #[tactic(auto, unfolding(crate::specs::Put::put_piece))]
    pub fn parenthesis(&mut self) -> Result<(), AllocError>
        ensures { OnOk result (written self.new ≡ put (written self.old) (token opens ∷ [])) }
    {
        self.space()?;
        self.bytes.push(b'(')?;
        self.apart = false;
        Ok(())
    }

    /// Writes `)`.
    #[tactic(auto, unfolding(crate::specs::Put::put_piece))]
    pub fn close(&mut self) -> Result<(), AllocError>
        ensures { OnOk result (written self.new ≡ put (written self.old) (token closes ∷ [])) }
    {
        self.bytes.push(b')')?;
        self.apart = true;
        Ok(())
    }

    #[tactic(auto, unfolding(crate::specs::Put::put_piece))]
    pub fn word(&mut self, bytes: &[u8]) -> Result<(), AllocError>
        ensures { OnOk result (written self.new ≡ put (written self.old) (word bytes.now ∷ [])) }
    {
        self.space()?;
        self.bytes.extend_from_slice(bytes)?;
        self.apart = true;
        Ok(())
    }

    /// Writes two parts of one word.
    #[tactic(auto, unfolding(crate::specs::Put::put_piece))]
    fn joint(&mut self, first: &[u8], second: &[u8]) -> Result<(), AllocError>
        ensures { OnOk result (written self.new ≡ put (written self.old) (word (first.now ++ second.now) ∷ [])) }
    {
        self.word(first)?;
        self.bytes.extend_from_slice(second)
    }

    /// Writes a name behind its type.
    pub fn typed(&mut self, wide: bool, name: &[u8]) -> Result<(), AllocError>
        ensures { OnOk result (written self.new ≡ put (written self.old) (word (of_type wide name.now) ∷ [])) }
    {
        if wide {
            self.joint(b"i64.", name)
        } else {
            self.joint(b"i32.", name)
        }
    }

    pub fn number(&mut self, n: u32) -> Result<(), AllocError>
        ensures { OnOk result (written self.new ≡ put (written self.old) (number n ∷ [])) }
    {
        let mut digits = Buffer::new();
        self.word(digits.format(n).as_bytes())
    }

    /// Writes a number behind its key.
    pub fn keyed(&mut self, key: &[u8], n: u64) -> Result<(), AllocError>
        ensures { OnOk result (written self.new ≡ put (written self.old) (word (key.now ++ decimal n) ∷ [])) }
    {
        let mut digits = Buffer::new();
        self.joint(key, digits.format(n).as_bytes())
    }

    pub fn signed(&mut self, n: i64) -> Result<(), AllocError>
        ensures { OnOk result (written self.new ≡ put (written self.old) (word (signed_decimal n) ∷ [])) }
    {
        let mut digits = Buffer::new();
        self.word(digits.format(n).as_bytes())
    }

    #[tactic(auto, unfolding(crate::specs::Put::put_piece))]
    pub fn string(&mut self, value: &[u8]) -> Result<(), AllocError>
        ensures { OnOk result (written self.new ≡ put (written self.old) (token (string value.now) ∷ [])) }
    {
        self.word(b"\"")?;
        self.characters(value)?;
        self.bytes.push(b'"')?;
        Ok(())
    }

    /// Writes the bytes of a string.
    fn characters(&mut self, value: &[u8]) -> Result<(), AllocError>
        ensures bytes { OnOk result (self.new.bytes.items ≡ self.old.bytes.items ++ flat_map byte_text value.now) }
        ensures apart { self.new.apart ≡ self.old.apart }
    {
        for byte in value {
            push_byte(&mut self.bytes, *byte)?;
        }
        Ok(())
    }

    #[tactic(auto, unfolding(crate::specs::Put::put_piece))]
    pub fn line_end(&mut self) -> Result<(), AllocError>
        ensures { OnOk result (written self.new ≡ put (written self.old) (line_end ∷ [])) }
    {
        self.bytes.push(b'\n')?;
        self.apart = false;
        Ok(())
    }

    /// What was written.
    pub fn into_bytes(self) -> Vec<u8>
        ensures { result.items ≡ (written self).bytes }
    {
        self.bytes
    }
}

/// A byte of a string, as it stands or by two hexadecimal digits.
fn push_byte(bytes: &mut Vec<u8>, byte: u8) -> Result<(), AllocError>
    ensures { OnOk result (bytes.new.items ≡ bytes.old.items ++ byte_text byte) }
{
    if stands_as_it_is(byte) {
        bytes.push(byte)?;
    } else {
        bytes.push(b'\\')?;
        bytes.push(hexadecimal_digit(byte / 16))?;
        bytes.push(hexadecimal_digit(byte % 16))?;
    }
    Ok(())
}

fn stands_as_it_is(byte: u8) -> bool
    ensures { result ≡ printing.stands_as_it_is byte }
{
    32 <= byte && byte <= 126 && byte != b'"' && byte != b'\\'
}

fn hexadecimal_digit(n: u8) -> u8
    requires { n < 16 }
    ensures { result ≡ printing.hexadecimal_digit n }
{
    if n <= 9 { b'0' + n } else { b'a' - 10 + n }
}
