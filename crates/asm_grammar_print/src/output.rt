//! A text that is being written, token by token.

ghost use Rattle.std.specs.Prelude.{◌≡◌, ◌≤◌, ◌&&◌, [], ◌∷◌, ◌++◌, OnOk, length, take, drop, decimal};
ghost use Rattle.asm_lang_tokens.specs.Bytes.{is_name_byte};
ghost use Rattle.asm_lang.specs.Printing.{word, line_feed, last_byte, first_byte, runs_together, gap_between, literal_text};
ghost use Rattle.asm_grammar_print.specs.Put.{written, at_start, put};

use itoa::Buffer;
use js_tokens::{is_name_byte, token_len};
use std::alloc::{AllocError, Global};

/// The bytes so far, and the last token of them, or nothing after a line feed.
#[derive(Drop)]
pub struct Output {
    bytes: Vec<u8>,
    last: Vec<u8>,
}

impl Output {
    pub fn new(alloc: Global) -> Output
        ensures { written result ≡ at_start }
    {
        Output {
            bytes: Vec::new(alloc),
            last: Vec::new(alloc),
        }
    }

    /// Writes a token, after a space if it would run together with the one before it.
    #[tactic(auto, unfolding(crate::specs::Put::put_piece))]
    pub fn word(&mut self, token: &[u8]) -> Result<(), AllocError>
        ensures { OnOk result (written self.new ≡ put (written self.old) (word token.now ∷ [])) }
    {
        self.gap(token)?;
        self.bytes.extend_from_slice(token)?;
        self.last.clear();
        self.last.extend_from_slice(token)?;
        Ok(())
    }

    /// Writes the space, if there has to be one before the token. What was the last token is of no use after this.
    fn gap(&mut self, token: &[u8]) -> Result<(), AllocError>
        ensures { OnOk result (self.new.bytes.items ≡ self.old.bytes.items ++ gap_between self.old.last.items token.now) }
    {
        let before = self.last.len();
        self.last.extend_from_slice(token)?;
        if runs_together(&self.last, before) {
            self.bytes.push(b' ')?;
        }
        Ok(())
    }

    #[tactic(auto, unfolding(crate::specs::Put::put_piece))]
    pub fn line_feed(&mut self) -> Result<(), AllocError>
        ensures { OnOk result (written self.new ≡ put (written self.old) (line_feed ∷ [])) }
    {
        self.last.clear();
        self.bytes.push(b'\n')?;
        Ok(())
    }

    /// Writes a number, with a minus sign as a token of its own.
    pub fn literal(&mut self, value: i128) -> Result<(), AllocError>
        ensures { OnOk result (written self.new ≡ put (written self.old) (literal_text value)) }
    {
        if value < 0 {
            self.word(b"-")?;
            self.number(value.unsigned_abs())
        } else {
            self.number(value.unsigned_abs())
        }
    }

    fn number(&mut self, value: u128) -> Result<(), AllocError>
        ensures { OnOk result (written self.new ≡ put (written self.old) (word (decimal value) ∷ [])) }
    {
        let mut digits = Buffer::new();
        self.word(digits.format(value).as_bytes())
    }

    /// What was written.
    pub fn into_bytes(self) -> Vec<u8>
        ensures { result.items ≡ (written self).bytes }
    {
        self.bytes
    }
}

/// Whether two tokens need a space between them: the bytes of both, and how many are of the first.
fn runs_together(both: &[u8], before: usize) -> bool
    requires { before ≤ length both.now }
    ensures { result ≡ runs_together (take before both.now) (drop before both.now) }
{
    let (first, second) = both.split_at(before);
    if first.is_empty() {
        return false;
    }
    if names_touch(first, second) {
        return true;
    }
    token_len(both) != before
}

/// Whether a name byte stands on either side.
fn names_touch(first: &[u8], second: &[u8]) -> bool
    ensures { result ≡ (is_name_byte (last_byte first.now) && is_name_byte (first_byte second.now)) }
{
    ends_in_name_byte(first) && begins_with_name_byte(second)
}

#[tactic(auto, using(crate::proofs::Ends::ends))]
fn ends_in_name_byte(token: &[u8]) -> bool
    ensures { result ≡ is_name_byte (last_byte token.now) }
{
    match token.last() {
        None => false,
        Some(byte) => is_name_byte(*byte),
    }
}

fn begins_with_name_byte(token: &[u8]) -> bool
    ensures { result ≡ is_name_byte (first_byte token.now) }
{
    match token {
        [] => false,
        [byte, ..] => is_name_byte(*byte),
    }
}
