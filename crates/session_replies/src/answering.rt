//! The replies of a script, taken one by one.
ghost use Rattle.std.specs.Prelude.{◌≡◌, IfOk, OnErr};
ghost use Rattle.sem_words.specs.Lists.{list_items, text_bytes};
ghost use Rattle.session_lang.specs.Imports.{first_replies, take_reply, answer_import};
ghost use Rattle.session_lang.specs.Views.{script_of};
ghost use Rattle.session_replies.specs.Answers.{replies_of, answer_of, KeepsAtEnd};

use sem_words::{List, Text, Word};
use session_lang::{End, Event, Reply, ReplyLine, Script, WriteLine};
use std::alloc::{AllocError, Global};

/// The replies that are left, and the last word that one gave, which is 0 where none was given.
#[derive(Drop)]
pub struct Replies<'a> {
    left: &'a [ReplyLine],
    last: u64,
}

/// The caller goes on with the word, of which it takes as many low bits as its signature has. The
/// byte writes are made first, in order; then the event is added.
#[derive(Drop)]
pub struct Given<'a> {
    pub word: u64,
    pub writes: &'a [WriteLine],
    pub event: Option<Event>,
}

/// What a call of an import comes to.
#[derive(Drop)]
pub enum Answer<'a> {
    Goes(Given<'a>),
    Ends(End),
}

impl<'a> Replies<'a> {
    /// The replies of a session as it begins.
    pub fn of(script: &'a Script) -> Replies<'a>
        ensures { replies_of result ≡ first_replies (script_of script.now) }
    {
        Replies {
            left: script.replies.as_slice(),
            last: 0,
        }
    }

    /// Answers a call of the import with these words. `$trap` ends the session, and `$high` gives the
    /// high bits of the last reply and is no event; neither takes a reply. For want of memory no
    /// reply is taken.
    pub fn answer(
        &mut self,
        alloc: Global,
        name: &[u8],
        args: List<Word>,
    ) -> Result<Answer<'a>, AllocError>
        ensures answer { IfOk result (λ a. answer_of a (replies_of self.new) ≡ answer_import name.now (list_items args) (replies_of self.old)) }
        ensures kept { IfOk result (λ a. KeepsAtEnd a (replies_of self.old) (replies_of self.new)) }
        ensures unchanged { OnErr result (replies_of self.new ≡ replies_of self.old) }
    {
        if name == b"$trap".as_slice() {
            let name = Text::from_bytes(alloc, name)?;
            return Ok(Answer::Ends(End::Stopped(name, args)));
        }
        if name == b"$high".as_slice() {
            return Ok(Answer::Goes(Given {
                word: self.last >> 32,
                writes: &[],
                event: None,
            }));
        }
        let name = Text::from_bytes(alloc, name)?;
        Ok(self.take(name, args))
    }

    // Takes the next reply.
    fn take(&mut self, name: Text, args: List<Word>) -> Answer<'a>
        ensures answer { answer_of result (replies_of self.new) ≡ take_reply (text_bytes name) (list_items args) (replies_of self.old).left }
        ensures kept { KeepsAtEnd result (replies_of self.old) (replies_of self.new) }
    {
        let left = self.left;
        match left {
            [] => Answer::Ends(End::NoReply(name, args)),
            [next, rest @ ..] => match &next.reply {
                Reply::Throw => Answer::Ends(End::Stopped(name, args)),
                Reply::Give(word, writes) => {
                    self.left = rest;
                    self.last = *word;
                    Answer::Goes(Given {
                        word: *word,
                        writes: writes.as_slice(),
                        event: Some(Event::Import(name, args)),
                    })
                }
            },
        }
    }
}
