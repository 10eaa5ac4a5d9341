//! Words that are no part of the integer profile.

ghost use Rattle.std.specs.Prelude.{◌≡◌, IfOk, IfErr, List, Ok};
ghost use Rattle.wat_lang.specs.Numbers.{is_outside};
ghost use Rattle.wat_lang.specs.Texts.{outside_at, stands_outside};
ghost use Rattle.wat_lang.specs.Tokens as spec;
ghost use Rattle.wat_tokens.specs.Left.{IsLeft, IsFirstFault};
ghost use Rattle.wat_tokens.specs.Views.{class_of, token_of};
ghost use Rattle.wat_marks.specs.Views.{outside_after};

use wat_tokens::{Class, Next, Scanner, Token};

// Most words begin with another byte than `f` or `m`, and the rest of them isn't looked at.
fn is_outside(word: &[u8]) -> bool
    ensures { result ≡ is_outside word.now }
{
    match word {
        [b'f', ..] => word.starts_with(b"f32") || word.starts_with(b"f64"),
        [b'm', ..] => word == b"memory.grow".as_slice(),
        _ => false,
    }
}

/// Whether it is a word that is no part of the integer profile.
pub fn stands_outside(class: Class<'_>) -> bool
    ensures { result ≡ stands_outside (class_of class.entry) }
{
    match class {
        Class::Atom(word) => is_outside(word),
        _ => false,
    }
}

/// The offset of the first such word, where one more token is looked at.
fn outside_after(found: Option<u64>, token: Token<'_>) -> Option<u64>
    ensures { result ≡ outside_after found (token_of token.entry) }
{
    match found {
        Some(at) => Some(at),
        None => {
            if stands_outside(token.class) {
                Some(token.at)
            } else {
                None
            }
        }
    }
}

/// The offset of the first such word of what is left, or that of the first fault of its tokens.
pub fn outside_behind(from: Scanner<'_>) -> Result<Option<u64>, u64>
    ensures found { IfOk result (λ o. (ts : List spec.Token) × IsLeft from.entry (Ok ts) × (o ≡ outside_at ts)) }
    ensures fault { IfErr result (λ at. IsFirstFault from.entry at) }
{
    let mut scanner = from;
    let mut found = None;
    loop {
        match scanner.next() {
            Next::Token(token) => found = outside_after(found, token),
            Next::End => return Ok(found),
            Next::Fault(at) => return Err(at),
        }
    }
}
