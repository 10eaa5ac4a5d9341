//! What a session changes beside the words of functions.
ghost use Rattle.std.specs.Prelude.{◌≡◌, suc, [], ◌∷◌, ◌++◌, pos, map, Some, IfOk, OnOk, MatchBool};
ghost use Rattle.sem_words.specs.Lists.{list_items};
ghost use Rattle.heap_lang.specs.Heap.{load, store};
ghost use Rattle.session_lang.specs.Imports.{answer_import, goes_on};
ghost use Rattle.session_lang.specs.Observation.{running, ended};
ghost use Rattle.session_lang.specs.Views.{event_of, end_of};
ghost use Rattle.session_replies.specs.Answers.{events_of, given_of, replies_of};
ghost use Rattle.session_replies.specs.Views.{seen_of};
ghost use Rattle.asm_run_code.specs.Machine.{element_word};
ghost use Rattle.asm_run_code.specs.Slots as slots;
ghost use Rattle.asm_run_steps.specs.Worlds.{world_of, asked_of, answered};
ghost use Rattle.sem_words.specs.Words.{word_of};

use crate::words::{put_at, word_at};
use heap_lang::ViewKind;
use heap_views::Heap;
use sem_words::{List, Word};
use session_lang::{End, Event};
use session_replies::{Answer, Given, Replies, Seen, put_writes};
use std::alloc::{AllocError, Global};

/// The module's variables, the heap, the replies that are left, the events so far and the units that are left. Where the session is
/// over, `ending` says how it ended; until then it says nothing.
#[derive(Drop)]
pub struct World<'a> {
    pub globals: Vec<u32>,
    pub heap: Heap,
    pub replies: Replies<'a>,
    pub events: List<Event>,
    pub units: u64,
    pub ending: End,
}

// A whole number modulo 2^32.
#[inline(always)]
fn low_word(z: i64) -> u32
    ensures { result ≡ word_of 32 z }
{
    z.rem_euclid(1 << 32) as u32
}

impl World<'_> {
    /// A variable of the module.
    #[inline(always)]
    pub fn global(&self, global: u32) -> u32
        ensures { result ≡ slots.get self.now.globals.items global }
    {
        word_at(self.globals.as_slice(), global as usize)
    }

    /// Puts a word into one.
    #[inline(always)]
    pub fn set_global(&mut self, global: u32, word: u32) -> Result<(), AllocError>
        ensures { OnOk result (world_of self.new ≡ record (world_of self.old) { globals = slots.put self.old.globals.items global word }) }
    {
        put_at(&mut self.globals, global as usize, word)
    }

    /// Takes a unit. False, and nothing is changed, where none is left.
    #[inline(always)]
    pub fn pay(&mut self) -> bool
        ensures units { MatchBool result (self.old.units ≡ suc self.new.units) ((self.old.units ≡ 0) × (self.new.units ≡ 0)) }
        ensures others { world_of self.new ≡ record (world_of self.old) { units = self.new.units } }
    {
        if self.units == 0 {
            return false;
        }
        self.units -= 1;
        true
    }

    /// The word of an element, 0 outside the heap.
    #[inline(always)]
    pub fn read_element(&self, kind: ViewKind, index: u32) -> u32
        ensures { result ≡ element_word (load kind (pos index) self.now.heap) }
    {
        match self.heap.view(kind).get(i64::from(index)) {
            Some(z) => low_word(z),
            None => 0,
        }
    }

    /// Writes an element, and nothing outside the heap.
    #[inline(always)]
    pub fn write_element(&mut self, kind: ViewKind, index: u32, word: u32)
        ensures { world_of self.new ≡ record (world_of self.old) { heap = store kind (pos index) word self.old.heap } }
    {
        let _ = self.heap.view_mut(kind).set(i64::from(index), word);
    }

    /// Calls the import of this name: the low word of its answer, or None where the session is over. For want of memory the world is
    /// lost: a reply may be taken.
    #[inline(never)]
    pub fn call_import(
        &mut self,
        alloc: Global,
        name: &[u8],
        args: List<Word>,
    ) -> Result<Option<u32>, AllocError>
        ensures units { self.new.units ≡ self.old.units }
        ensures asked { IfOk result (λ word. asked_of word self.new ≡ answered (answer_import name.now (list_items args) (replies_of self.old.replies)) (world_of self.old)) }
    {
        match self.replies.answer(alloc, name, args)? {
            Answer::Ends(end) => {
                self.ending = end;
                Ok(None)
            }
            Answer::Goes(given) => {
                let word = self.go_on(given)?;
                Ok(Some(word))
            }
        }
    }

    // The byte writes are made and the event is added.
    #[tactic(auto, using(crate::proofs::Writes::puts_are_writes))]
    fn go_on(&mut self, given: Given<'_>) -> Result<u32, AllocError>
        ensures units { self.new.units ≡ self.old.units }
        ensures asked { IfOk result (λ word. asked_of (Some word) self.new ≡ answered (goes_on (given_of given.entry (replies_of self.old.replies))) (world_of self.old)) }
    {
        push_event(&mut self.events, given.event)?;
        put_writes(&mut self.heap, given.writes);
        Ok((given.word % (1 << 32)) as u32)
    }

    /// Adds an event.
    pub fn add_event(&mut self, event: Event) -> Result<(), AllocError>
        ensures { OnOk result (world_of self.new ≡ record (world_of self.old) { events = map event_of (list_items self.old.events) ++ event_of event ∷ [] }) }
    {
        push_event(&mut self.events, Some(event))
    }

    /// What is seen where a unit is due and none is left.
    pub fn running(self) -> Seen
        ensures { seen_of result ≡ running (world_of self.entry).events }
    {
        Seen {
            events: self.events,
            end: None,
            heap: self.heap,
        }
    }

    /// What is seen at the end.
    pub fn ended(self, end: End) -> Seen
        ensures { seen_of result ≡ ended (world_of self.entry).events (end_of end) (world_of self.entry).heap }
    {
        Seen {
            events: self.events,
            end: Some(end),
            heap: self.heap,
        }
    }
}

// Puts the event at the end, if there is one.
fn push_event(events: &mut List<Event>, event: Option<Event>) -> Result<(), AllocError>
    ensures { OnOk result (map event_of (list_items events.new) ≡ map event_of (list_items events.old) ++ events_of event) }
{
    let Some(event) = event else {
        return Ok(());
    };
    match events.push(event) {
        Ok(()) => Ok(()),
        Err(_) => Err(AllocError),
    }
}
