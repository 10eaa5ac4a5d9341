//! Scripts that are written out.
use crate::rows::holds;
use script_read::{ScriptFault, read_script};
use session_lang::{CallLine, Reply, ReplyLine, Script, WriteLine};
use std::alloc::Global;

fn is_write(write: &WriteLine, at: u64, bytes: &[u8], line: u64) -> bool {
    write.at == at && write.bytes.as_bytes() == bytes && write.line == line
}

fn is_call(call: &CallLine, name: &[u8], args: &[i128], line: u64) -> bool {
    call.name.as_bytes() == name && call.args.as_slice() == args && call.line == line
}

// The word of -1, with two byte writes.
fn gives(reply: &ReplyLine, line: u64) -> bool {
    match &reply.reply {
        Reply::Give(word, writes) => {
            *word == u64::MAX && are_writes(writes.as_slice(), line) && reply.line == line
        }
        Reply::Throw => false,
    }
}

fn are_writes(writes: &[WriteLine], line: u64) -> bool {
    match writes {
        [first, second] => is_write(first, 4, &[0], line) && is_write(second, 8, &[1], line),
        _ => false,
    }
}

fn has_global(script: &Script) -> bool {
    match script.globals.as_slice() {
        [global] => {
            global.name.as_bytes() == b"g".as_slice() && global.value == -1 && global.line == 2
        }
        _ => false,
    }
}

fn has_write(script: &Script) -> bool {
    match script.writes.as_slice() {
        [write] => is_write(write, 16, &[10, 255], 4),
        _ => false,
    }
}

fn has_calls(script: &Script) -> bool {
    match script.calls.as_slice() {
        [first, second] => { is_call(first, b"f", &[1, -2], 5) && is_call(second, b"jK", &[], 6) }
        _ => false,
    }
}

fn has_replies(script: &Script) -> bool {
    match script.replies.as_slice() {
        [first, second] => {
            gives(first, 8) && matches!(second.reply, Reply::Throw) && second.line == 9
        }
        _ => false,
    }
}

fn has_all(script: &Script) -> bool {
    has_global(script) && has_write(script) && has_calls(script) && has_replies(script)
}

fn has_nothing(script: &Script) -> bool {
    script.globals.is_empty()
        && script.writes.is_empty()
        && script.calls.is_empty()
        && script.replies.is_empty()
}

const ALL_KINDS: &[u8] =
    b"# all kinds\r\nglobal g -1\r\n\r\n\theap 16 0aFF \r\ncall f  1 -2\r\ncall %6a4B\r\n  # replies\nreply -1 4=00 8=01\nthrow";

/// What is read of a text: all lines above, nothing, or a line that is refused.
#[derive(Clone, Copy)]
enum Read {
    All,
    Nothing,
    Refused(u64),
}

fn is_read(alloc: Global, text: &[u8], wanted: Read) -> bool {
    match (read_script(alloc, text), wanted) {
        (Ok(script), Read::All) => has_all(&script),
        (Ok(script), Read::Nothing) => has_nothing(&script),
        (Err(ScriptFault::Refused { line: at }), Read::Refused(line)) => at == line,
        _ => false,
    }
}

static TEXTS: [(&[u8], Read); 11] = [
    (ALL_KINDS, Read::All),
    (b"", Read::Nothing),
    (b"global a\x01 1", Read::Refused(1)),
    (b"throw\ncall f 18446744073709551616", Read::Refused(2)),
    (b"call f -0", Read::Refused(1)),
    (b"\n# x\ncall f 01", Read::Refused(3)),
    (b"heap 268435456 00", Read::Refused(1)),
    (b"heap 0 0", Read::Refused(1)),
    (b"global g 1 2", Read::Refused(1)),
    (b"reply 0 4", Read::Refused(1)),
    (b"throw\r\nthrow now", Read::Refused(2)),
];

#[test]
fn texts_are_read_or_a_line_is_refused(rt: HostRuntime) {
    for (number, (text, wanted)) in TEXTS.iter().enumerate() {
        holds(&rt, number, is_read(rt.alloc(), text, *wanted));
    }
}
