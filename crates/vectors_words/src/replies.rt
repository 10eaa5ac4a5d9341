//! Worked rows.
use crate::rows::holds;
use heap_views::Heap;
use script_read::read_script;
use sem_words::{List, Text, Word};
use session_lang::{End, Event, Script, WriteLine};
use session_replies::{Answer, Given, Replies, put_writes};
use std::alloc::{AllocError, Global};
use std::process::Abort;

/// How a call of an import is answered.
#[derive(Clone, Copy)]
enum Answered {
    /// With a word, no writes and no event.
    Silently(u64),
    /// With a word, and the call as an event.
    Seen(u64),
    Stops,
    NoReply,
}

/// A call of an import, and its answer.
type Row = (&'static [u8], &'static [Word], Answered);

fn is_call(event: &Option<Event>, name: &[u8], args: &[Word]) -> bool {
    match event {
        Some(Event::Import(text, words)) => text.as_bytes() == name && words.as_slice() == args,
        _ => false,
    }
}

fn are_given(given: &Given<'_>, row: &Row) -> bool {
    let (name, args, answered) = *row;
    match answered {
        Answered::Silently(word) => {
            given.word == word && given.writes.is_empty() && given.event.is_none()
        }
        Answered::Seen(word) => given.word == word && is_call(&given.event, name, args),
        Answered::Stops | Answered::NoReply => false,
    }
}

fn is_end(end: &End, row: &Row) -> bool {
    let (name, args, answered) = *row;
    match (end, answered) {
        (End::Stopped(text, words), Answered::Stops)
        | (End::NoReply(text, words), Answered::NoReply) => {
            text.as_bytes() == name && words.as_slice() == args
        }
        _ => false,
    }
}

fn is_answered<'a>(alloc: Global, replies: &mut Replies<'a>, row: &Row) -> bool {
    let (name, args, _) = *row;
    let Ok(args) = Vec::from_slice(alloc, args) else {
        return false;
    };
    match replies.answer(alloc, name, List::from_vec(args)) {
        Ok(Answer::Goes(given)) => are_given(&given, row),
        Ok(Answer::Ends(end)) => is_end(&end, row),
        Err(_) => false,
    }
}

/// The script's replies answer the calls so.
fn answer_all(rt: &impl Abort, alloc: Global, script: &Script, rows: &[Row]) {
    let mut replies = Replies::of(script);
    for (number, row) in rows.iter().enumerate() {
        holds(rt, number, is_answered(alloc, &mut replies, row));
    }
}

/// The replies of the script of this text answer the calls so.
fn answers(rt: &impl Abort, alloc: Global, text: &[u8], rows: &[Row]) {
    match read_script(alloc, text) {
        Ok(script) => answer_all(rt, alloc, &script, rows),
        Err(_) => holds(rt, 0, false),
    }
}

// A reply with a word, 0x5_0000_0007, and one byte write, and then one that throws.
const TWO_REPLIES: &[u8] = b"reply 21474836487 1=0908\nthrow";

static IN_ORDER: [Row; 5] = [
    (b"$high", &[], Answered::Silently(0)),
    (b"f", &[Word::W32(1)], Answered::Seen(0x5_0000_0007)),
    (b"$high", &[], Answered::Silently(5)),
    (b"$trap", &[Word::W32(3)], Answered::Stops),
    (b"g", &[Word::W64(2)], Answered::Stops),
];

#[test]
fn replies_in_order(rt: HostRuntime) {
    answers(&rt, rt.alloc(), TWO_REPLIES, &IN_ORDER);
}

static NONE_LEFT: [Row; 1] = [(b"f", &[Word::W32(1)], Answered::NoReply)];

#[test]
fn no_reply_is_left(rt: HostRuntime) {
    answers(&rt, rt.alloc(), b"", &NONE_LEFT);
}

static WRITES: [(u64, &[u8]); 4] = [
    (0, &[1, 2, 3]),
    (1, &[9, 8]),
    (3, &[7, 7]),
    (0x1_0000_0000, &[6]),
];

fn all_writes(alloc: Global) -> Result<Vec<WriteLine>, AllocError> {
    let mut writes = Vec::new(alloc);
    for (at, bytes) in WRITES.iter() {
        writes.push(WriteLine {
            at: *at,
            bytes: Text::from_bytes(alloc, bytes)?,
            line: 1,
        })?;
    }
    Ok(writes)
}

#[test]
fn writes_in_order(rt: HostRuntime) {
    match (Heap::new(rt.alloc(), 4), all_writes(rt.alloc())) {
        (Ok(mut heap), Ok(writes)) => {
            put_writes(&mut heap, writes.as_slice());
            holds(&rt, 0, heap.bytes() == [1, 9, 8, 0].as_slice());
        }
        _ => holds(&rt, 1, false),
    }
}
