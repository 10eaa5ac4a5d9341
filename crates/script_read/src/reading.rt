//! Whole scripts.

ghost use Rattle.std.specs.Prelude.{◌≡◌, Ok, IfOk, MatchResult};
ghost use Rattle.session_lang.specs.Views.{script_of};
ghost use Rattle.script_lang.specs.Lines as spec;
ghost use Rattle.script_lang.specs.Lines.{words_of};
ghost use Rattle.script_read.specs.Lined.{item_view, texts_of};
ghost use Rattle.script_lang.specs.Reading.{said_script};
ghost use Rattle.script_read.specs.Collecting as collecting;
ghost use Rattle.script_read.specs.Collecting.{no_script, after_line, IsRefusal};

use crate::cuts;
use crate::fault::ScriptFault;
use crate::items::{Item, pushed, read_item};
use sem_words::List;
use session_lang::Script;
use std::alloc::{AllocError, Global};

fn empty_script(alloc: Global) -> Script
    ensures { script_of result ≡ no_script }
{
    Script {
        globals: List::new(alloc),
        writes: List::new(alloc),
        calls: List::new(alloc),
        replies: List::new(alloc),
    }
}

// The script with one more line of its kind.
fn with_item(script: Script, item: Item) -> Result<Script, AllocError>
    ensures { IfOk result (λ s. script_of s ≡ collecting.with_item (script_of script) (item_view item)) }
{
    match item {
        Item::Global(line) => Ok(Script {
            globals: pushed(script.globals, line)?,
            ..script
        }),
        Item::Write(line) => Ok(Script {
            writes: pushed(script.writes, line)?,
            ..script
        }),
        Item::Call(line) => Ok(Script {
            calls: pushed(script.calls, line)?,
            ..script
        }),
        Item::Reply(line) => Ok(Script {
            replies: pushed(script.replies, line)?,
            ..script
        }),
    }
}

// Whether a line says nothing: it has no word, or its first begins with `#`.
fn is_passed_over(words: &[&[u8]]) -> bool
    ensures { result ≡ spec.is_passed_over (texts_of words.now) }
{
    match words.split_first() {
        Some((first, _)) => matches!(*first, [b'#', ..]),
        None => true,
    }
}

// The script with what the words of one more line say.
fn with_words(
    alloc: Global,
    script: Script,
    line: u64,
    words: &[&[u8]],
) -> Result<Script, ScriptFault>
    ensures { MatchResult result (λ s. after_line line (texts_of words.now) (script_of script) ≡ Ok (script_of s)) (IsRefusal (after_line line (texts_of words.now) (script_of script))) }
{
    if is_passed_over(words) {
        return Ok(script);
    }
    match read_item(alloc, line, words)? {
        Some(item) => Ok(with_item(script, item)?),
        None => Err(ScriptFault::Refused { line }),
    }
}

fn with_line(alloc: Global, script: Script, line: u64, text: &[u8]) -> Result<Script, ScriptFault>
    ensures { MatchResult result (λ s. after_line line (words_of text.now) (script_of script) ≡ Ok (script_of s)) (IsRefusal (after_line line (words_of text.now) (script_of script))) }
{
    let words = cuts::words(alloc, text)?;
    with_words(alloc, script, line, words.as_slice())
}

/// The script that a text says. A refusal is the first line that isn't in the grammar, from 1.
pub fn read_script(alloc: Global, text: &[u8]) -> Result<Script, ScriptFault>
    ensures { MatchResult result (λ s. said_script text.now ≡ Ok (script_of s)) (IsRefusal (said_script text.now)) }
{
    let mut script = empty_script(alloc);
    let mut line: u64 = 1;
    let mut left = Some(text);
    while let Some(rest) = left {
        let (first, after) = cuts::cut_line(rest);
        script = with_line(alloc, script, line, first)?;
        line += 1;
        left = after;
    }
    Ok(script)
}
