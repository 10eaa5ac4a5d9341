//! The operand stack.
ghost use Rattle.std.specs.Prelude.{◌≡◌, ◌≤◌, List, [], ◌∷◌, ◌++◌, length, reverse, IfOk, OnOk, OnErr, Some, None, MatchOption, MatchBool};
ghost use Rattle.sem_words.specs.declared.word.Word.{Word};
ghost use Rattle.wasm_lang_exec.specs.Reductions.{top_of, below_top};
ghost use Rattle.wasm_run_operands.specs.Tops.{top32, top64};

use sem_words::Word;
use std::alloc::{AllocError, Global};
use std::marker::Model;

/// The operands of a run, the topmost last. Those from the floor on are the innermost block's; the others
/// stand below it, and no instruction of the block reaches them.
#[derive(Drop)]
pub struct Operands {
    words: Vec<Word>,
    floor: usize,
}

impl Model for Operands {
    ghost use Rattle.std.specs.Prelude.{◌≤◌, take, drop, reverse, vec_len};
    ghost use Rattle.wasm_run_operands.specs.Stack.{Stack};

    ghost Value = { Stack };

    ghost view = { λ a. record {
      values = reverse (drop a.floor a.words.items);
      below = reverse (take a.floor a.words.items);
    } };

    ghost invariant = { λ a. a.floor ≤ vec_len a.words };
}

impl Operands {
    /// No operands. It takes no memory.
    pub fn new(alloc: Global) -> Operands
        ensures values { result.values ≡ [] }
        ensures below { result.below ≡ [] }
    {
        Operands {
            words: Vec::new(alloc),
            floor: 0,
        }
    }

    /// Puts an operand on top.
    pub fn push(&mut self, word: Word) -> Result<(), AllocError>
        ensures ok { OnOk result (self.new.values ≡ word ∷ self.old.values) }
        ensures err { OnErr result (self.new.values ≡ self.old.values) }
        ensures below { self.new.below ≡ self.old.below }
    {
        self.words.push(word)?;
        Ok(())
    }

    /// Takes the topmost operand of the block. None, and nothing is changed, exactly where it has none.
    pub fn pop(&mut self) -> Option<Word>
        ensures word { MatchOption result
            ((self.old.values ≡ []) × (self.new.values ≡ []))
            (λ word. self.old.values ≡ word ∷ self.new.values) }
        ensures below { self.new.below ≡ self.old.below }
    {
        if self.words.len() > self.floor {
            self.words.pop()
        } else {
            None
        }
    }

    /// Takes the topmost operand of the block where it has 32 bits. None, and nothing is promised of the
    /// block's operands, exactly where it has none or one of 64 bits.
    pub fn pop32(&mut self) -> Option<u32>
        ensures number { MatchOption result (top32 self.old.values ≡ None) (λ n. self.old.values ≡ Word.W32 n ∷ self.new.values) }
        ensures below { self.new.below ≡ self.old.below }
    {
        match self.pop()? {
            Word::W32(number) => Some(number),
            Word::W64(_) => None,
        }
    }

    /// Takes the topmost operand of the block where it has 64 bits. None, and nothing is promised of the
    /// block's operands, exactly where it has none or one of 32 bits.
    pub fn pop64(&mut self) -> Option<u64>
        ensures number { MatchOption result (top64 self.old.values ≡ None) (λ n. self.old.values ≡ Word.W64 n ∷ self.new.values) }
        ensures below { self.new.below ≡ self.old.below }
    {
        match self.pop()? {
            Word::W64(number) => Some(number),
            Word::W32(_) => None,
        }
    }

    /// How many operands stand below the block.
    pub fn floor(&self) -> usize
        ensures { result ≡ length self.now.below }
    {
        self.floor
    }

    /// A block is entered: the operands that there are now stand below it.
    pub fn enter(&mut self)
        ensures values { self.new.values ≡ [] }
        ensures below { self.new.below ≡ self.old.values ++ self.old.below }
    {
        self.floor = self.words.len();
    }

    /// The block ends, and its operands come to those of the block round it, below which `floor` stand.
    pub fn leave(&mut self, floor: usize)
        requires { floor ≤ length self.old.below }
        ensures { (values below : List Word) → self.old.below ≡ values ++ below → length below ≡ floor
            → (self.new.values ≡ self.old.values ++ values) × (self.new.below ≡ below) }
    {
        self.floor = floor;
    }

    /// Keeps the topmost `count` operands of the block, and drops its others.
    /// False, and nothing is changed, exactly where it has fewer.
    pub fn keep(&mut self, count: usize) -> bool
        ensures kept { MatchBool result
            (top_of count self.old.values ≡ Some self.new.values)
            ((top_of count self.old.values ≡ None) × (self.new.values ≡ self.old.values)) }
        ensures below { self.new.below ≡ self.old.below }
    {
        let held = self.words.len() - self.floor;
        if held < count {
            return false;
        }
        let from = self.words.len() - count;
        self.words.copy_within(from.., self.floor);
        self.words.truncate(self.floor + count);
        true
    }

    /// Takes the topmost `count` operands of the block, in the order in which they were pushed.
    /// None, and nothing is changed, exactly where it has fewer.
    pub fn split_top(&mut self, count: usize) -> Result<Option<Vec<Word>>, AllocError>
        ensures words { IfOk result (λ words. MatchOption words
            ((top_of count self.old.values ≡ None) × (self.new.values ≡ self.old.values))
            (λ words. (top_of count self.old.values ≡ Some (reverse words.items)) × (self.new.values ≡ below_top count self.old.values))) }
        ensures below { self.new.below ≡ self.old.below }
    {
        if self.words.len() - self.floor < count {
            return Ok(None);
        }
        Ok(Some(self.words.split_off(self.words.len() - count)?))
    }
}
