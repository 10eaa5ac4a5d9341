//! What single lines of a script say.

ghost use Rattle.std.specs.Prelude.{◌≡◌, ◌≢◌, ◌++◌, ◌∷◌, [], length, map, option_map, IfOk, MatchOption};
ghost use Rattle.sem_words.specs.Lists.{list_items};
ghost use Rattle.session_lang.specs.Views.{write_of};
ghost use Rattle.script_lang.specs.Items as spec;
ghost use Rattle.script_lang.specs.Numbers.{number_of};
ghost use Rattle.script_read.specs.Lined.{item_view, texts_of};

use crate::names::{bytes, name};
use crate::numbers::{number, place, word};
use memchr::memchr;
use sem_words::List;
use session_lang::{CallLine, GlobalLine, Reply, ReplyLine, WriteLine};
use std::alloc::{AllocError, Global};

/// What a line gives to the script.
pub enum Item {
    Global(GlobalLine),
    Write(WriteLine),
    Call(CallLine),
    Reply(ReplyLine),
}

/// The list with one more item.
pub fn pushed<T: Drop>(list: List<T>, item: T) -> Result<List<T>, AllocError>
    ensures { IfOk result (λ l. list_items l ≡ list_items list ++ item ∷ []) }
{
    let mut list = list;
    match list.push(item) {
        Ok(()) => Ok(list),
        Err(_) => Err(AllocError),
    }
}

// Two words, if there are just two.
fn both<'w>(words: &'w [&'w [u8]]) -> Option<(&'w [u8], &'w [u8])>
    ensures { MatchOption result (length words.now ≢ 2) (λ p. texts_of words.now ≡ p.0.now ∷ p.1.now ∷ []) }
{
    if words.len() == 2 {
        Some((words[0], words[1]))
    } else {
        None
    }
}

#[tactic(auto, using(crate::proofs::ItemLemmas::item_rules))]
fn global(alloc: Global, line: u64, words: &[&[u8]]) -> Result<Option<Item>, AllocError>
    ensures { IfOk result (λ i. option_map item_view i ≡ spec.global_line line (texts_of words.now)) }
{
    let Some((name_word, value_word)) = both(words) else {
        return Ok(None);
    };
    let Some(value) = number(value_word) else {
        return Ok(None);
    };
    match name(alloc, name_word)? {
        Some(name) => Ok(Some(Item::Global(GlobalLine { name, value, line }))),
        None => Ok(None),
    }
}

// Bytes at a place.
fn write(
    alloc: Global,
    line: u64,
    at: &[u8],
    digits: &[u8],
) -> Result<Option<WriteLine>, AllocError>
    ensures { IfOk result (λ w. option_map write_of w ≡ spec.write_at line at.now digits.now) }
{
    let Some(at) = place(at) else {
        return Ok(None);
    };
    match bytes(alloc, digits)? {
        Some(bytes) => Ok(Some(WriteLine { at, bytes, line })),
        None => Ok(None),
    }
}

#[tactic(auto, using(crate::proofs::ItemLemmas::item_rules))]
fn heap(alloc: Global, line: u64, words: &[&[u8]]) -> Result<Option<Item>, AllocError>
    ensures { IfOk result (λ i. option_map item_view i ≡ spec.heap_line line (texts_of words.now)) }
{
    let Some((at, digits)) = both(words) else {
        return Ok(None);
    };
    match write(alloc, line, at, digits)? {
        Some(write) => Ok(Some(Item::Write(write))),
        None => Ok(None),
    }
}

// The numbers of a call.
fn numbers(alloc: Global, words: &[&[u8]]) -> Result<Option<List<i128>>, AllocError>
    ensures { IfOk result (λ ns. option_map list_items ns ≡ spec.all_of number_of (texts_of words.now)) }
{
    let mut values = List::new(alloc);
    for word in words {
        match number(*word) {
            Some(value) => values = pushed(values, value)?,
            None => return Ok(None),
        }
    }
    Ok(Some(values))
}

fn call(alloc: Global, line: u64, words: &[&[u8]]) -> Result<Option<Item>, AllocError>
    ensures { IfOk result (λ i. option_map item_view i ≡ spec.call_line line (texts_of words.now)) }
{
    let Some((first, rest)) = words.split_first() else {
        return Ok(None);
    };
    let Some(args) = numbers(alloc, rest)? else {
        return Ok(None);
    };
    match name(alloc, *first)? {
        Some(name) => Ok(Some(Item::Call(CallLine { name, args, line }))),
        None => Ok(None),
    }
}

// A place and bytes with `=` between them.
fn write_word(alloc: Global, line: u64, word: &[u8]) -> Result<Option<WriteLine>, AllocError>
    ensures { IfOk result (λ w. option_map write_of w ≡ spec.write_word line word.now) }
{
    match memchr(b'=', word) {
        Some(at) => write(alloc, line, &word[..at], &word[at + 1..]),
        None => Ok(None),
    }
}

// The byte writes of a reply.
fn writes(alloc: Global, line: u64, words: &[&[u8]]) -> Result<Option<List<WriteLine>>, AllocError>
    ensures { IfOk result (λ ws. option_map (λ l. map write_of (list_items l)) ws ≡ spec.all_of (spec.write_word line) (texts_of words.now)) }
{
    let mut writes = List::new(alloc);
    for word in words {
        match write_word(alloc, line, *word)? {
            Some(write) => writes = pushed(writes, write)?,
            None => return Ok(None),
        }
    }
    Ok(Some(writes))
}

fn reply(alloc: Global, line: u64, words: &[&[u8]]) -> Result<Option<Item>, AllocError>
    ensures { IfOk result (λ i. option_map item_view i ≡ spec.reply_line line (texts_of words.now)) }
{
    let Some((first, rest)) = words.split_first() else {
        return Ok(None);
    };
    let Some(value) = number(*first) else {
        return Ok(None);
    };
    match writes(alloc, line, rest)? {
        Some(writes) => {
            let reply = Reply::Give(word(value), writes);
            Ok(Some(Item::Reply(ReplyLine { reply, line })))
        }
        None => Ok(None),
    }
}

fn throw(line: u64, words: &[&[u8]]) -> Option<Item>
    ensures { option_map item_view result ≡ spec.throw_line line (texts_of words.now) }
{
    if words.is_empty() {
        let reply = Reply::Throw;
        Some(Item::Reply(ReplyLine { reply, line }))
    } else {
        None
    }
}

/// What a line says by its words, of which the first tells its kind, if it is in the grammar.
pub fn read_item(alloc: Global, line: u64, words: &[&[u8]]) -> Result<Option<Item>, AllocError>
    ensures { IfOk result (λ i. option_map item_view i ≡ spec.item_of line (texts_of words.now)) }
{
    let Some((kind, rest)) = words.split_first() else {
        return Ok(None);
    };
    let kind = *kind;
    if kind == b"global".as_slice() {
        global(alloc, line, rest)
    } else if kind == b"heap".as_slice() {
        heap(alloc, line, rest)
    } else if kind == b"call".as_slice() {
        call(alloc, line, rest)
    } else if kind == b"reply".as_slice() {
        reply(alloc, line, rest)
    } else if kind == b"throw".as_slice() {
        Ok(throw(line, rest))
    } else {
        Ok(None)
    }
}
