//! Quoted texts.

ghost use Rattle.std.specs.Prelude.{◌≡◌, ◌≤◌, length};
ghost use Rattle.std.specs.List.{prefix_len};
ghost use Rattle.asm_lang_tokens.specs.Bytes.{may_be_quoted};
ghost use Rattle.js_tokens.specs.Scan.{quoted_len};

use crate::bytes::{begins_with, may_be_quoted};

/// How many bytes that may be quoted stand at the front.
fn inner_len(quote: u8, s: &[u8]) -> usize
    ensures value { result ≡ prefix_len (may_be_quoted quote) s.now }
    ensures within { result ≤ length s.now }
{
    let mut n = 0;
    while n < s.len() && may_be_quoted(quote, s[n]) {
        n += 1;
    }
    n
}

/// How many bytes after this quote the text in it takes with the other quote, or 0 where there is none.
pub fn quoted_len(quote: u8, s: &[u8]) -> usize
    ensures value { result ≡ quoted_len quote s.now }
    ensures within { result ≤ length s.now }
{
    let n = inner_len(quote, s);
    let (_, after) = s.split_at(n);
    if begins_with(quote, after) { n + 1 } else { 0 }
}
