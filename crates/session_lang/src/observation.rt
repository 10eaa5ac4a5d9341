//! What the host sees of a session.

use sem_words::{List, Text, TrapKind, Word};

/// A call of an import with the words of its arguments, or the end of a call of the script.
#[derive(Drop)]
pub enum Event {
    Import(Text, List<Word>),
    Result(Word),
    Returned,
}

/// How a session ended. `Stopped` names the import that threw, or `$trap`; `NoReply` names the
/// import that was called when no reply was left.
#[derive(Drop)]
pub enum End {
    Done,
    Stopped(Text, List<Word>),
    NoReply(Text, List<Word>),
    Trap(TrapKind),
}

/// The events so far, then perhaps the end with the heap's bytes. While there is no end the
/// session is still running, and `heap` is empty.
#[derive(Drop)]
pub struct Observation {
    pub events: List<Event>,
    pub end: Option<End>,
    pub heap: Text,
}
