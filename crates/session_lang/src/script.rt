//! What the host gives to a session: values of imported globals, bytes for the heap, calls and
//! replies.

use sem_words::{List, Text};

/// A script, with its lines in order for each kind. Lines count from 1.
#[derive(Drop)]
pub struct Script {
    pub globals: List<GlobalLine>,
    pub writes: List<WriteLine>,
    pub calls: List<CallLine>,
    pub replies: List<ReplyLine>,
}

/// The value of an imported global, named as its module imports it.
#[derive(Drop)]
pub struct GlobalLine {
    pub name: Text,
    pub value: i128,
    pub line: u64,
}

/// Bytes that are put into the heap from the place `at` on.
#[derive(Drop)]
pub struct WriteLine {
    pub at: u64,
    pub bytes: Text,
    pub line: u64,
}

/// A call of an export.
#[derive(Drop)]
pub struct CallLine {
    pub name: Text,
    pub args: List<i128>,
    pub line: u64,
}

/// The answer to one call of an import.
#[derive(Drop)]
pub struct ReplyLine {
    pub reply: Reply,
    pub line: u64,
}

/// What an import does: it makes byte writes and gives a 64-bit word, or it throws.
#[derive(Drop)]
pub enum Reply {
    Give(u64, List<WriteLine>),
    Throw,
}

/// The line of a script that doesn't fit its module, or 0 where a line is missing.
#[derive(Clone, Copy, PartialEq, Eq, Debug)]
pub struct Misfit {
    pub line: u64,
}

/// How an export is called: its name, which of its parameters are 64-bit words, and whether its
/// result is one.
#[derive(Drop)]
pub struct CallShape {
    pub key: Text,
    pub wide: List<bool>,
    pub wide_result: bool,
}
