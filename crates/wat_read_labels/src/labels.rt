//! The labels of the blocks that are open.

ghost use Rattle.std.specs.Prelude.{◌≡◌, ◌+◌, ◌<◌, ◌^◌, ◌∷◌, [], None, Some, ℕ, List, IfSome, IfOk, OnOk, OnErr, drop, length, false, unwrap_or, if◌then◌else◌};
ghost use Rattle.wat_lang.specs.Names as spec;
ghost use Rattle.wat_lang.specs.Numbers as numbers;
ghost use Rattle.wat_lang.specs.Rows.{is_out_32, is_unknown};
ghost use Rattle.wat_grammar.specs.Views.{form_of, mark_of};
ghost use Rattle.wat_marks.specs.Strings.{reads_string};
ghost use Rattle.wat_marks.specs.Views.{marked_of};
ghost use Rattle.wat_read_labels.specs.Levels.{level_name, level_of, level_known};

use indexmap::IndexMap;
use key_hashes::{KeyHashes, NameKey};
use std::alloc::{AllocError, Global};
use std::marker::Model;
use wat_grammar::{Form, Mark};
use wat_lang::Space;
use wat_marks::MarkedToken;
use wat_read_tokens::{atom, is_id, natural_in};

/// A block that is open: its id, and the level of the block outside it that has the same one.
#[derive(Clone, Copy)]
pub struct Level<'a> {
    pub name: Option<&'a [u8]>,
    pub hidden: Option<u32>,
}

/// The labels of the blocks that are open. Contracts see the innermost first. An id is found by a map, which has the level of
/// the innermost block with it; what a block hides is put back at its end.
#[derive(Drop)]
pub struct Labels<'a> {
    levels: Vec<Level<'a>>,
    known: IndexMap<NameKey<'a>, Option<u32>, KeyHashes>,
}

impl<'a> Model for Labels<'a> {
    ghost use Rattle.wat_lang.specs.Names as spec;
    ghost use Rattle.wat_read_labels.specs.Levels.{names_of, Knows};

    ghost Value = { spec.Names };

    ghost view = { λ s. names_of s.levels.items };

    ghost invariant = { λ s. Knows s.levels.items s.known };
}

/// What the id of a block hid is known again.
fn put_back<'a>(
    known: &mut IndexMap<NameKey<'a>, Option<u32>, KeyHashes>,
    level: Level<'a>,
) -> Result<(), AllocError>
    ensures ok { OnOk result ((id : List ℕ) → level_known known.new id ≡ (if spec.is_named id (level_name level.entry) then level.entry.hidden else level_known known.old id)) }
    ensures err { OnErr result ((id : List ℕ) → level_known known.new id ≡ level_known known.old id) }
{
    match level.name {
        None => Ok(()),
        Some(name) => {
            known.insert(NameKey::of(name), level.hidden)?;
            Ok(())
        }
    }
}

impl<'a> Labels<'a> {
    /// No block is open.
    pub fn new(alloc: Global, hashes: KeyHashes) -> Labels<'a>
        ensures { result ≡ [] }
    {
        Labels {
            levels: Vec::new(alloc),
            known: IndexMap::with_hasher(alloc, hashes),
        }
    }

    /// How many are open.
    pub fn len(&self) -> usize
        ensures { result ≡ length self.now }
    {
        self.levels.len()
    }

    /// Whether it is an id that no open block has.
    pub fn is_unknown(&self, token: &MarkedToken<'_>) -> bool
        requires { reads_string (mark_of token.now.mark) ≡ false }
        ensures { result ≡ is_unknown self.now (marked_of token.now) }
    {
        is_id(atom(token)) && self.place(atom(token)).is_none()
    }

    /// The number of blocks within the one that a number or an id names, or 0 where there is none.
    pub fn number(&self, token: &MarkedToken<'_>) -> u32
        requires text { reads_string (mark_of token.now.mark) ≡ false }
        requires fits { is_out_32 (numbers.number_of (spec.text_of (marked_of token.now))) ≡ false }
        ensures { result ≡ unwrap_or (spec.index_of self.now (spec.text_of (marked_of token.now))) 0 }
    {
        match natural_in(atom(token)) {
            Some(number) => number,
            None => match self.place(atom(token)) {
                Some(place) => place,
                None => 0,
            },
        }
    }

    /// The level of the innermost block with the id, from the outermost on.
    fn level(&self, id: &[u8]) -> Option<u32>
        ensures level { result ≡ level_of id.now self.now }
        ensures within { IfSome result (λ k. k < length self.now) }
        ensures few { length self.now < 2 ^ 32 }
    {
        match self.known.get(&NameKey::of(id)) {
            Some(level) => *level,
            None => None,
        }
    }

    /// How many blocks are open within the innermost one that has the id.
    pub fn place(&self, id: &[u8]) -> Option<u32>
        ensures { result ≡ spec.place_of_id id.now self.now }
    {
        let count = self.len();
        match self.level(id) {
            Some(level) => Some((count - 1 - level as usize) as u32),
            None => None,
        }
    }

    /// How many are open. 2^32 of them have no room.
    fn room(&self) -> Result<u32, AllocError>
        ensures { IfOk result (λ n. (n ≡ length self.now) × (n + 1 < 2 ^ 32)) }
    {
        let count = self.len();
        if count < 4_294_967_295 {
            Ok(count as u32)
        } else {
            Err(AllocError)
        }
    }

    fn open(&mut self) -> Result<(), AllocError>
        ensures { OnOk result (self.new ≡ None ∷ self.old) }
    {
        self.room()?;
        self.levels.push(Level {
            name: None,
            hidden: None,
        })?;
        Ok(())
    }

    fn open_named(&mut self, name: &'a [u8]) -> Result<(), AllocError>
        ensures { OnOk result (self.new ≡ Some name.now ∷ self.old) }
    {
        let level = self.room()?;
        let hidden = self.level(name);
        self.levels.push(Level {
            name: Some(name),
            hidden,
        })?;
        match self.known.insert(NameKey::of(name), Some(level)) {
            Ok(_) => Ok(()),
            Err(_) => {
                self.levels.pop();
                Err(AllocError)
            }
        }
    }

    #[tactic(auto, using(crate::proofs::Opened::none_open, crate::proofs::Opened::knows_same))]
    fn close(&mut self) -> Result<(), AllocError>
        ensures { OnOk result (self.new ≡ drop 1 self.old) }
    {
        let count = self.levels.len();
        if count == 0 {
            return Ok(());
        }
        put_back(&mut self.known, self.levels[count - 1])?;
        self.levels.truncate(count - 1);
        Ok(())
    }

    /// The innermost block has the id.
    fn name(&mut self, name: &'a [u8]) -> Result<(), AllocError>
        ensures { OnOk result (self.new ≡ Some name.now ∷ drop 1 self.old) }
    {
        self.close()?;
        self.open_named(name)
    }

    fn behind(&mut self, form: Form) -> Result<(), AllocError>
        ensures { OnOk result (self.new ≡ spec.open_after self.old (form_of form)) }
    {
        match form {
            Form::Block => self.open(),
            Form::Loop => self.open(),
            Form::If => self.open(),
            Form::End => self.close(),
            _ => Ok(()),
        }
    }

    /// Those that are open behind the token.
    pub fn after(&mut self, token: &MarkedToken<'a>) -> Result<(), AllocError>
        ensures { OnOk result (self.new ≡ spec.labels_after self.old (marked_of token.now)) }
    {
        match token.mark {
            Mark::Instruction(form) => self.behind(form),
            Mark::Binds(Space::Label) => self.name(atom(token)),
            _ => Ok(()),
        }
    }
}
