//! Slots of words.
ghost use Rattle.std.specs.Prelude.{◌≡◌, ◌+◌, ◌<◌, ◌≤◌, [], length, OnOk, OnErr};
ghost use Rattle.asm_run_code.specs.Slots as slots;
ghost use Rattle.asm_run_steps.specs.Plain.{slot_word, with_word, with_words};

use std::alloc::{AllocError, Global};
use std::marker::Model;

/// The words of all functions that run, the slots of each from its base on. What lies past the end is 0.
#[derive(Drop)]
pub struct Words {
    items: Vec<u32>,
    base: usize,
}

impl Model for Words {
    ghost use Rattle.asm_run_steps.specs.Plain.{WordsPlain};

    ghost Value = { WordsPlain };

    ghost view = { λ words. record { all = words.items.items; base = words.base } };
}

impl Words {
    /// None. It takes no memory.
    pub fn new(alloc: Global) -> Words
        ensures { result ≡ record { all = []; base = 0 } }
    {
        Words {
            items: Vec::new(alloc),
            base: 0,
        }
    }

    /// Lets none stand.
    pub fn clear(&mut self)
        ensures { self.new ≡ record { all = []; base = 0 } }
    {
        self.items.clear();
        self.base = 0;
    }

    /// Where the slots of the function that runs begin.
    #[inline(always)]
    pub fn base(&self) -> usize
        ensures { result ≡ self.now.base }
    {
        self.base
    }

    /// Lets them begin there.
    #[inline(always)]
    pub fn set_base(&mut self, base: usize)
        ensures { self.new ≡ record self.old { base = base } }
    {
        self.base = base;
    }

    /// Lets them begin at a slot of the function that runs. For want of memory, where no memory has so many words, nothing is changed.
    #[inline(always)]
    pub fn enter(&mut self, slot: u32) -> Result<(), AllocError>
        ensures ok { OnOk result (self.new ≡ record self.old { base = self.old.base + slot }) }
        ensures err { OnErr result (self.new ≡ self.old) }
    {
        match self.base.checked_add(slot as usize) {
            Some(base) => {
                self.base = base;
                Ok(())
            }
            None => Err(AllocError),
        }
    }

    /// The word in a slot.
    #[inline(always)]
    #[tactic(auto, using(crate::proofs::Slots::get_past))]
    pub fn get(&self, slot: u32) -> u32
        ensures { result ≡ slot_word self.now slot }
    {
        let items = self.items.as_slice();
        let _len = items.len();
        match self.base.checked_add(slot as usize) {
            Some(at) => word_at(items, at),
            None => 0,
        }
    }

    /// The word in the slot that lies so many slots after one.
    #[tactic(auto, using(crate::proofs::Slots::get_past))]
    pub fn get_after(&self, slot: u32, count: u32) -> u32
        ensures { result ≡ slots.get self.now.all (self.now.base + slot + count) }
    {
        let items = self.items.as_slice();
        let _len = items.len();
        match self.base.checked_add(slot as usize + count as usize) {
            Some(at) => word_at(items, at),
            None => 0,
        }
    }

    /// Puts a word into a slot. For want of memory there may be more zeros, and nothing else is changed.
    #[inline(always)]
    pub fn put(&mut self, slot: u32, word: u32) -> Result<(), AllocError>
        ensures { OnOk result (self.new ≡ with_word self.old slot word) }
    {
        match self.base.checked_add(slot as usize) {
            Some(at) => put_at(&mut self.items, at, word),
            None => Err(AllocError),
        }
    }

    /// Puts words into the slots from one on.
    pub fn put_all(&mut self, slot: u32, words: &[u32]) -> Result<(), AllocError>
        ensures { OnOk result (self.new ≡ with_words self.old slot words.now) }
    {
        match self.base.checked_add(slot as usize) {
            Some(at) => put_run(&mut self.items, at, words),
            None => Err(AllocError),
        }
    }
}

/// The word at a place.
#[inline(always)]
#[tactic(auto, using(crate::proofs::Slots::get_here, crate::proofs::Slots::get_past))]
pub fn word_at(words: &[u32], at: usize) -> u32
    ensures { result ≡ slots.get words.now at }
{
    match words.get(at) {
        Some(word) => *word,
        None => 0,
    }
}

/// Puts a word at a place. For want of memory there may be zeros up to it.
#[inline(always)]
#[tactic(auto, using(crate::proofs::Slots::put_inside))]
pub fn put_at(words: &mut Vec<u32>, at: usize, word: u32) -> Result<(), AllocError>
    ensures put { OnOk result (words.new.items ≡ slots.put words.old.items at word) }
    ensures inside { OnOk result (at < length words.new.items) }
{
    if at < words.len() {
        words[at] = word;
        return Ok(());
    }
    put_past(words, at, word)
}

// Zeros up to the place past the end, and then the word.
#[inline(never)]
#[tactic(auto, using(crate::proofs::Slots::put_after_zero, crate::proofs::Slots::put_end))]
fn put_past(words: &mut Vec<u32>, at: usize, word: u32) -> Result<(), AllocError>
    requires { length words.old.items ≤ at }
    ensures put { OnOk result (words.new.items ≡ slots.put words.old.items at word) }
    ensures inside { OnOk result (at < length words.new.items) }
{
    'zeros: while words.len() < at {
        words.push(0)?;
    }
    words.push(word)?;
    Ok(())
}

// Puts words at the places from one on.
#[tactic(auto, unfolding(asm_run_code::specs::Slots::put_all))]
fn put_run(items: &mut Vec<u32>, begin: usize, words: &[u32]) -> Result<(), AllocError>
    ensures { OnOk result (items.new.items ≡ slots.put_all items.old.items begin words.now) }
{
    let mut at = begin;
    for word in words {
        put_at(items, at, *word)?;
        let _len = items.len();
        at += 1;
    }
    Ok(())
}
