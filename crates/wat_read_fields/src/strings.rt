//! Strings.

ghost use Rattle.std.specs.Prelude.{◌≡◌, ◌++◌, [], IfOk, OnOk, flat_map, if◌then◌else◌};
ghost use Rattle.wasm_tree.specs.Views.{bytes_of};
ghost use Rattle.wat_lang.specs.Modules as spec;
ghost use Rattle.wat_lang.specs.Names.{text_of, all_with};
ghost use Rattle.wat_marks.specs.Views.{marked_of};
ghost use Rattle.wat_tokens.specs.Views.{string_value};
ghost use Rattle.wat_read_tokens.specs.Marks.{marks_of};
ghost use Rattle.wat_read_tokens.specs.Wanted.{test_of};

use sem_words::Text;
use std::alloc::{AllocError, Global};
use wasm_tree::Bytes;
use wat_marks::MarkedToken;
use wat_read_tokens::{Wanted, first};
use wat_tokens::{Class, StringText};

fn string_bytes<'a>(alloc: Global, string: StringText<'a>) -> Result<Bytes<'a>, AllocError>
    ensures { IfOk result (λ b. bytes_of b ≡ string_value string.entry) }
{
    match string.lent() {
        Some(bytes) => Ok(Bytes::Lent(bytes)),
        None => {
            let bytes = string.bytes(alloc)?;
            let text = Text::from_bytes(alloc, bytes.as_slice())?;
            Ok(Bytes::Own(text))
        }
    }
}

fn token_bytes<'a>(alloc: Global, token: &MarkedToken<'a>) -> Result<Bytes<'a>, AllocError>
    ensures { IfOk result (λ b. bytes_of b ≡ text_of (marked_of token.now)) }
{
    match token.token.class {
        Class::String(string) => string_bytes(alloc, string),
        Class::Atom(bytes) => Ok(Bytes::Lent(bytes)),
        Class::Opens => Ok(Bytes::Lent(&[])),
        Class::Closes => Ok(Bytes::Lent(&[])),
    }
}

/// The bytes of the first string that is wanted, lent where each stands for itself.
pub fn string_in<'a>(
    alloc: Global,
    wanted: Wanted,
    parts: &[MarkedToken<'a>],
) -> Result<Bytes<'a>, AllocError>
    ensures { IfOk result (λ b. bytes_of b ≡ spec.string_in (test_of wanted) (marks_of parts.now)) }
{
    match first(parts, wanted) {
        Some(token) => token_bytes(alloc, token),
        None => Ok(Bytes::Lent(&[])),
    }
}

fn push_bytes(all: &mut Vec<u8>, token: &MarkedToken<'_>) -> Result<(), AllocError>
    ensures { OnOk result (all.new.items ≡ all.old.items ++ (if spec.is_bytes (marked_of token.now).mark then text_of (marked_of token.now) else [])) }
{
    if !Wanted::Bytes.is(token.mark) {
        return Ok(());
    }
    match token.token.class {
        Class::String(string) => string.push_to(all),
        Class::Atom(bytes) => all.extend_from_slice(bytes),
        Class::Opens => Ok(()),
        Class::Closes => Ok(()),
    }
}

/// Room for the strings of most data segments, so that the bytes of those need not be moved while they are read.
const ROOM: usize = 256;

/// The bytes of all strings of a data segment, one after another.
pub fn segment_bytes<'a>(alloc: Global, parts: &[MarkedToken<'_>]) -> Result<Bytes<'a>, AllocError>
    ensures { IfOk result (λ b. bytes_of b ≡ flat_map text_of (all_with spec.is_bytes (marks_of parts.now))) }
{
    let mut all = Vec::with_capacity(alloc, ROOM)?;
    for token in parts {
        push_bytes(&mut all, token)?;
    }
    let text = Text::from_bytes(alloc, all.as_slice())?;
    Ok(Bytes::Own(text))
}
