//! Lines and words.

ghost use Rattle.std.specs.Prelude.{◌≡◌, ◌<◌, ◌≤◌, ◌∷◌, length, map, IfOk, IfSome};
ghost use Rattle.script_lang.specs.Lines as spec;
ghost use Rattle.script_lang.specs.Lines.{lines_of, words_of};
ghost use Rattle.script_read.specs.Cuts.{rest_of, lines_after, words_after, with_word, length_left};

use memchr::{memchr, memchr2};
use std::alloc::{AllocError, Global};

#[tactic(auto, using(crate::proofs::CutLemmas::return_rules))]
fn without_return(line: &[u8]) -> &[u8]
    ensures { result.now ≡ spec.without_return line.now }
{
    if line.is_empty() {
        return line;
    }
    let last = line.len() - 1;
    if line[last] == b'\r' {
        &line[..last]
    } else {
        line
    }
}

/// The first line without its end, and the text after it, where it was ended.
pub fn cut_line(text: &[u8]) -> (&[u8], Option<&[u8]>)
    ensures lines { lines_of text.now ≡ result.0.now ∷ lines_after (rest_of result.1) }
    ensures shorter { length_left (rest_of result.1) ≤ length text.now }
{
    match memchr(b'\n', text) {
        Some(at) => (without_return(&text[..at]), Some(&text[at + 1..])),
        None => (text, None),
    }
}

/// What stands before the first blank, and the text after it, where there is one.
fn cut_word(text: &[u8]) -> (&[u8], Option<&[u8]>)
    ensures words { words_of text.now ≡ with_word result.0.now (words_after (rest_of result.1)) }
    ensures shorter { IfSome result.1 (λ rest. length rest.now < length text.now) }
{
    match memchr2(b' ', b'\t', text) {
        Some(at) => (&text[..at], Some(&text[at + 1..])),
        None => (text, None),
    }
}

/// The words of a line.
pub fn words(alloc: Global, line: &[u8]) -> Result<Vec<&[u8]>, AllocError>
    ensures { IfOk result (λ ws. map (λ w. w.now) ws.items ≡ words_of line.now) }
{
    let mut words = Vec::new(alloc);
    let mut left = Some(line);
    while let Some(text) = left {
        let (word, rest) = cut_word(text);
        if !word.is_empty() {
            words.push(word)?;
        }
        left = rest;
    }
    Ok(words)
}
