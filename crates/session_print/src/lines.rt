//! Words, events and ends.

ghost use Rattle.std.specs.Prelude.{◌≡◌, ◌++◌, map, OnOk};
ghost use Rattle.sem_words.specs.Lists.{text_bytes, list_items};
ghost use Rattle.session_lang.specs.Observation.{trapped};
ghost use Rattle.session_lang.specs.Views.{event_of, end_of};
ghost use Rattle.script_lang.specs.Texts as spec;

use itoa::Buffer;
use sem_words::{List, Text, TrapKind, Word, signed32, signed64};
use session_lang::{End, Event};
use std::alloc::AllocError;

/// A word, by its signed reading.
fn push_word(out: &mut Vec<u8>, word: Word) -> Result<(), AllocError>
    ensures { OnOk result (out.new.items ≡ out.old.items ++ spec.word_text word) }
{
    let mut digits = Buffer::new();
    match word {
        Word::W32(word) => out.extend_from_slice(digits.format(signed32(word)).as_bytes()),
        Word::W64(word) => out.extend_from_slice(digits.format(signed64(word)).as_bytes()),
    }
}

/// Words, each behind a space.
#[tactic(auto, using(crate::proofs::Steps::steps))]
fn push_words(out: &mut Vec<u8>, words: &[Word]) -> Result<(), AllocError>
    ensures { OnOk result (out.new.items ≡ out.old.items ++ spec.words_text words.now) }
{
    for word in words {
        out.extend_from_slice(b" ")?;
        push_word(out, *word)?;
    }
    Ok(())
}

/// The line of a call, after the words that say what it was.
fn push_call(
    out: &mut Vec<u8>,
    what: &[u8],
    name: &Text,
    args: &List<Word>,
) -> Result<(), AllocError>
    ensures { OnOk result (out.new.items
        ≡ out.old.items ++ spec.line (what.now ++ text_bytes name.now ++ spec.words_text (list_items args.now))) }
{
    out.extend_from_slice(what)?;
    out.extend_from_slice(name.as_bytes())?;
    push_words(out, args.as_slice())?;
    out.extend_from_slice(b"\n")
}

fn push_event(out: &mut Vec<u8>, event: &Event) -> Result<(), AllocError>
    ensures { OnOk result (out.new.items ≡ out.old.items ++ spec.event_line (event_of event.now)) }
{
    match event {
        Event::Import(name, args) => push_call(out, b"import ", name, args),
        Event::Result(word) => {
            out.extend_from_slice(b"result ")?;
            push_word(out, *word)?;
            out.extend_from_slice(b"\n")
        }
        Event::Returned => out.extend_from_slice(b"returned\n"),
    }
}

/// A line for each event.
#[tactic(auto, using(crate::proofs::Steps::steps))]
pub fn push_events(out: &mut Vec<u8>, events: &[Event]) -> Result<(), AllocError>
    ensures { OnOk result (out.new.items ≡ out.old.items ++ spec.event_lines (map event_of events.now)) }
{
    for event in events {
        push_event(out, event)?;
    }
    Ok(())
}

fn push_trap(out: &mut Vec<u8>, kind: TrapKind) -> Result<(), AllocError>
    ensures { OnOk result (out.new.items ≡ out.old.items ++ spec.end_line (trapped kind)) }
{
    let mut digits = Buffer::new();
    out.extend_from_slice(b"end trap ")?;
    out.extend_from_slice(digits.format(kind.code()).as_bytes())?;
    out.extend_from_slice(b"\n")
}

/// The line of an end.
pub fn push_end(out: &mut Vec<u8>, end: &End) -> Result<(), AllocError>
    ensures { OnOk result (out.new.items ≡ out.old.items ++ spec.end_line (end_of end.now)) }
{
    match end {
        End::Done => out.extend_from_slice(b"end done\n"),
        End::Stopped(name, args) => push_call(out, b"end stopped ", name, args),
        End::NoReply(name, args) => push_call(out, b"end no-reply ", name, args),
        End::Trap(kind) => push_trap(out, *kind),
    }
}
