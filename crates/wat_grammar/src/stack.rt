//! The stack of what may still come behind the tokens that are read.

ghost use Rattle.std.specs.Prelude.{◌≡◌, [], ◌∷◌, ◌++◌, drop, false, None, IfOk, OnOk, MatchOption};
ghost use Rattle.wat_lang.specs.declared.parts.Rule.TheVariants as rules;
ghost use Rattle.wat_lang.specs.Grammar.{instruction_rows, rows};
ghost use Rattle.wat_lang.specs.Words.{instruction_names};
ghost use Rattle.wat_laws_grammar.specs.Machine.{feed, may_stop, start};
ghost use Rattle.wat_grammar.specs.declared.parts.Item.TheVariants as items;
ghost use Rattle.wat_grammar.specs.Views.{class_of, fed_to, is_code, item_of, items_of, next_in, over};

use crate::parts::{Item, Lexeme, Mark, meets};
use crate::rules::{instruction, is_code, may_end, pick};
use crate::sequences::{immediates, items};
use std::alloc::{AllocError, Global};
use std::marker::Model;
use wat_lang::Rule;

/// What may still come, the first on top. Contracts see it as the list of the grammar's items, the first first.
#[derive(Drop)]
pub struct Stack {
    items: Vec<Item>,
}

impl Model for Stack {
    ghost use Rattle.std.specs.Prelude.{List, reverse};
    ghost use Rattle.wat_lang.specs.Grammar as grammar;
    ghost use Rattle.wat_grammar.specs.Views.{items_of};

    ghost Value = { List grammar.Item };

    ghost view = { λ s. items_of (reverse s.items.items) };
}

impl Stack {
    /// What has to come at the start of a text.
    pub fn new(alloc: Global) -> Result<Stack, AllocError>
        ensures { IfOk result (λ s. s ≡ start) }
    {
        let mut stack = Stack {
            items: Vec::new(alloc),
        };
        stack.push(Item::Rule(Rule::Grammar))?;
        Ok(stack)
    }

    fn push(&mut self, item: Item) -> Result<(), AllocError>
        ensures { OnOk result (self.new ≡ item_of item ∷ self.old) }
    {
        self.items.push(item)?;
        Ok(())
    }

    fn pop(&mut self) -> Option<Item>
        ensures { MatchOption result ((self.old ≡ []) × (self.new ≡ [])) (λ item. self.old ≡ item_of item ∷ self.new) }
    {
        self.items.pop()
    }

    /// Most instructions have one immediate or none.
    #[inline(always)]
    fn push_all(&mut self, items: &[Item]) -> Result<(), AllocError>
        ensures { OnOk result (self.new ≡ items_of items.now ++ self.old) }
    {
        match items {
            [] => Ok(()),
            [item] => self.push(*item),
            _ => self.push_some(items),
        }
    }

    #[inline(never)]
    fn push_some(&mut self, items: &[Item]) -> Result<(), AllocError>
        ensures { OnOk result (self.new ≡ items_of items.now ++ self.old) }
    {
        let mut left = items.len();
        while left > 0 {
            left -= 1;
            self.push(items[left])?;
        }
        Ok(())
    }

    #[tactic(auto, using(crate::proofs::Tops::last_on_top))]
    fn top(&self) -> Option<Item>
        ensures { MatchOption result (self.now ≡ []) (λ item. self.now ≡ item_of item ∷ drop 1 self.now) }
    {
        let length = self.items.len();
        if length == 0 {
            return None;
        }
        Some(self.items[length - 1])
    }

    fn drop_top(&mut self)
        ensures { self.new ≡ drop 1 self.old }
    {
        let _ = self.pop();
    }

    /// Reads a token where a rule is on top. It has the mark that is given, or it begins no row of the rule, which is dropped.
    #[inline(always)]
    fn begin(&mut self, rule: Rule, lexeme: Lexeme<'_>) -> Result<Option<Mark>, AllocError>
        requires { self.old ≡ item_of (items.Rule rule) ∷ drop 1 self.old }
        ensures begun { IfOk result (λ mark. over (drop 1 self.old) (next_in (rows rule) (class_of lexeme.entry)) ≡ fed_to mark self.new) }
        ensures dropped { IfOk result (λ mark. mark ≡ None → self.new ≡ drop 1 self.old) }
    {
        if is_code(rule) {
            return self.begin_instruction(lexeme);
        }
        self.begin_row(rule, lexeme)
    }

    /// The same where the rule is any other than code: what begins fields, heads and blocks is rare beside instructions.
    #[inline(never)]
    fn begin_row(&mut self, rule: Rule, lexeme: Lexeme<'_>) -> Result<Option<Mark>, AllocError>
        requires { is_code rule ≡ false }
        ensures begun { IfOk result (λ mark. over (drop 1 self.old) (next_in (rows rule) (class_of lexeme.entry)) ≡ fed_to mark self.new) }
        ensures dropped { IfOk result (λ mark. mark ≡ None → self.new ≡ drop 1 self.old) }
    {
        self.drop_top();
        match pick(rule, lexeme) {
            Some(next) => {
                self.push_all(items(next.items))?;
                Ok(Some(next.mark))
            }
            None => Ok(None),
        }
    }

    /// The same where code is on top, which stays there below what an instruction wants.
    #[inline(always)]
    fn begin_instruction(&mut self, lexeme: Lexeme<'_>) -> Result<Option<Mark>, AllocError>
        requires { self.old ≡ item_of (items.Rule rules.Code) ∷ drop 1 self.old }
        ensures begun { IfOk result (λ mark. over (drop 1 self.old) (next_in (instruction_rows instruction_names) (class_of lexeme.entry)) ≡ fed_to mark self.new) }
        ensures dropped { IfOk result (λ mark. mark ≡ None → self.new ≡ drop 1 self.old) }
    {
        match instruction(lexeme) {
            Some(form) => {
                self.push_all(immediates(form))?;
                Ok(Some(Mark::Instruction(form)))
            }
            None => {
                self.drop_top();
                Ok(None)
            }
        }
    }

    #[tactic(auto, using(crate::proofs::Rows::feeds_begun, crate::proofs::Rows::feeds_below, crate::proofs::Rows::feeds_nothing))]
    /// Reads a token. It has the mark that is given, or it can't stand here, and then nothing is said of the stack.
    pub fn feed(&mut self, lexeme: Lexeme<'_>) -> Result<Option<Mark>, AllocError>
        ensures { IfOk result (λ mark. feed self.old (class_of lexeme.entry) ≡ fed_to mark self.new) }
    {
        loop {
            let Some(item) = self.top() else {
                return Ok(None);
            };
            match item {
                Item::Token(want, mark) => {
                    self.drop_top();
                    return Ok(if meets(want, lexeme) {
                        Some(mark)
                    } else {
                        None
                    });
                }
                Item::Rule(rule) => {
                    if let Some(mark) = self.begin(rule, lexeme)? {
                        return Ok(Some(mark));
                    }
                    if !may_end(rule) {
                        return Ok(None);
                    }
                }
            }
        }
    }

    /// Whether a text may end here.
    pub fn may_stop(mut self) -> bool
        ensures { result ≡ may_stop self }
    {
        loop {
            match self.pop() {
                None => return true,
                Some(Item::Token(_, _)) => return false,
                Some(Item::Rule(rule)) => {
                    if !may_end(rule) {
                        return false;
                    }
                }
            }
        }
    }
}
