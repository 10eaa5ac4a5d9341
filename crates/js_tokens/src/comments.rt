//! Comments.

ghost use Rattle.std.specs.Prelude.{◌≡◌, ◌≤◌, ◌<◌, ◌+◌, IfSome, length};
ghost use Rattle.std.specs.List.{list_any, position_or_len};
ghost use Rattle.asm_lang_tokens.specs.Bytes.{is_line_end};
ghost use Rattle.asm_lang_tokens.specs.Forms.{begins_close, begins_separator};
ghost use Rattle.asm_lang_tokens.specs.Text.{first_place};

use crate::bytes::is_line_end;

/// Whether a line end is among the bytes.
pub fn has_line_end(s: &[u8]) -> bool
    ensures { result ≡ list_any is_line_end s.now }
{
    s.iter().any(|b| is_line_end(*b))
}

/// How many bytes stand before a line end or the end.
pub fn line_len(s: &[u8]) -> usize
    ensures value { result ≡ position_or_len is_line_end s.now }
    ensures within { result ≤ length s.now }
{
    let mut n = 0;
    while n < s.len() && !is_line_end(s[n]) {
        n += 1;
    }
    n
}

fn begins_close(s: &[u8]) -> bool
    ensures { result ≡ begins_close s.now }
{
    matches!(s, [b'*', b'/', ..])
}

fn begins_separator(s: &[u8]) -> bool
    ensures { result ≡ begins_separator s.now }
{
    matches!(s, [0xe2, 0x80, 0xa8 | 0xa9, ..])
}

/// How many bytes stand before the first `*/`.
pub fn close_at(s: &[u8]) -> Option<usize>
    ensures value { result ≡ first_place begins_close s.now }
    ensures within { IfSome result (λ n. n + 2 ≤ length s.now) }
{
    let mut n = 0;
    while n < s.len() {
        if begins_close(&s[n..]) {
            return Some(n);
        }
        n += 1;
    }
    None
}

/// How many bytes stand before the first line separator or paragraph separator.
pub fn separator_at(s: &[u8]) -> Option<usize>
    ensures value { result ≡ first_place begins_separator s.now }
    ensures within { IfSome result (λ n. n < length s.now) }
{
    let mut n = 0;
    while n < s.len() {
        if begins_separator(&s[n..]) {
            return Some(n);
        }
        n += 1;
    }
    None
}
