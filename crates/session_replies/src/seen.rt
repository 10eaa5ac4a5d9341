//! What is seen of a session.
ghost use Rattle.std.specs.Prelude.{◌≡◌, IfOk};
ghost use Rattle.session_lang.specs.Views.{observation_of};
ghost use Rattle.session_replies.specs.Views.{seen_of};

use heap_views::Heap;
use sem_words::{List, Text};
use session_lang::{End, Event, Observation};
use std::alloc::{AllocError, Global};

/// What is seen of a session, with the heap as it stands. While there is no end the session is still running, and nothing of the
/// heap is seen.
#[derive(Drop)]
pub struct Seen {
    pub events: List<Event>,
    pub end: Option<End>,
    pub heap: Heap,
}

impl Seen {
    /// The same with a copy of the heap's bytes.
    pub fn observation(self, alloc: Global) -> Result<Observation, AllocError>
        ensures { IfOk result (λ o. observation_of o ≡ seen_of self) }
    {
        let heap = match &self.end {
            None => Text::from_bytes(alloc, &[])?,
            Some(_) => Text::from_bytes(alloc, self.heap.bytes())?,
        };
        Ok(Observation {
            events: self.events,
            end: self.end,
            heap,
        })
    }
}
