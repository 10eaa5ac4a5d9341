// The open blocks of a pass over a body.

ghost use Rattle.std.specs.Prelude.{◌≡◌, ◌<◌, ◌^◌, ◌-◌, ◌∷◌, List, length, map, reverse, slice_get, MatchResult, IfOk};
ghost use Rattle.wasm_lang_valid.specs.State.{Level, label_of, on_top, opened, turned, ended, at_start};
ghost use Rattle.wasm_lang_valid.specs.Measures.{standing};
ghost use Rattle.wasm_lang_valid.specs.Typing;
ghost use Rattle.wasm_lang_valid.specs.Typing.{all_labels, alike, listed, Fixed, Leaves, AnyOne, TwoAlike};
ghost use Rattle.wasm_lang.specs.declared.types.ValType.TheVariants.{I32};
ghost use Rattle.wasm_validate_bodies.specs.Blocks.{levels, Rise, FaultIs};

use crate::fault::Fault;
use crate::frame::Frame;
use crate::frames::{add, innermost, may_end, may_turn, remove, replace};
use crate::operands::{
    act_alike, act_any, act_call, act_fixed, act_indirect, act_leaves, close, push_result,
};
use std::alloc::Global;
use std::marker::Model;
use wasm_lang::ValType;
use wasm_lang_valid::{Opening, Rule};

/// The open blocks, the innermost first.
#[derive(Drop)]
pub struct Blocks {
    operands: Vec<Option<ValType>>,
    frames: Vec<Frame>,
}

impl Model for Blocks {
    ghost Value = { List Level };

    ghost view = { λ b. levels (reverse b.frames.items) b.operands.items };

    ghost invariant = { λ b. Rise (reverse b.frames.items) (length b.operands.items) };
}

impl Blocks {
    /// Before the first instruction of a body with this result.
    pub fn new(alloc: Global, result_type: Option<ValType>) -> Result<Blocks, Fault>
        ensures { IfOk result (λ b. b ≡ at_start result_type) }
    {
        let frame = Frame {
            opening: Opening::Straight,
            result: result_type,
            endless: false,
            height: 0,
        };
        let mut frames = Vec::new(alloc);
        match frames.push(frame) {
            Ok(()) => Ok(Blocks {
                operands: Vec::new(alloc),
                frames,
            }),
            Err(_) => Err(Fault::Memory),
        }
    }

    /// Takes operands of these types and gives one, or none.
    pub fn fixed(&mut self, takes: &[ValType], gives: Option<ValType>) -> Result<(), Fault>
        ensures { MatchResult result (λ _. on_top (Fixed takes.now (listed gives)) self.old ≡ Ok self.new) (λ e. FaultIs e (on_top (Fixed takes.now (listed gives)) self.old)) }
    {
        let top = innermost(&self.frames)?;
        act_fixed(&mut self.operands, top.height, top.endless, takes, gives)
    }

    /// Takes a function's arguments, and gives its result.
    pub fn call(&mut self, params: &[ValType], gives: Option<ValType>) -> Result<(), Fault>
        ensures { MatchResult result (λ _. on_top (Fixed (reverse params.now) (listed gives)) self.old ≡ Ok self.new) (λ e. FaultIs e (on_top (Fixed (reverse params.now) (listed gives)) self.old)) }
    {
        let top = innermost(&self.frames)?;
        act_call(&mut self.operands, top.height, top.endless, params, gives)
    }

    /// Takes the number of a table's entry and a function's arguments, and gives its result.
    pub fn call_indirect(&mut self, params: &[ValType], gives: Option<ValType>) -> Result<(), Fault>
        ensures { MatchResult result (λ _. on_top (Fixed (I32 ∷ reverse params.now) (listed gives)) self.old ≡ Ok self.new) (λ e. FaultIs e (on_top (Fixed (I32 ∷ reverse params.now) (listed gives)) self.old)) }
    {
        let top = innermost(&self.frames)?;
        act_indirect(&mut self.operands, top.height, top.endless, params, gives)
    }

    /// Takes operands of these types, and doesn't come back.
    pub fn leaves(&mut self, takes: &[ValType]) -> Result<(), Fault>
        ensures { MatchResult result (λ _. on_top (Leaves takes.now) self.old ≡ Ok self.new) (λ e. FaultIs e (on_top (Leaves takes.now) self.old)) }
    {
        let top = innermost(&self.frames)?;
        act_leaves(&mut self.operands, top.height, top.endless, takes)?;
        replace(
            &mut self.frames,
            Frame {
                endless: true,
                ..top
            },
        );
        Ok(())
    }

    /// Takes an operand of any type.
    pub fn discard(&mut self) -> Result<(), Fault>
        ensures { MatchResult result (λ _. on_top AnyOne self.old ≡ Ok self.new) (λ e. FaultIs e (on_top AnyOne self.old)) }
    {
        let top = innermost(&self.frames)?;
        act_any(&mut self.operands, top.height, top.endless)
    }

    /// Takes a choice and two operands of one type, and gives one.
    pub fn select(&mut self) -> Result<(), Fault>
        ensures { MatchResult result (λ _. on_top TwoAlike self.old ≡ Ok self.new) (λ e. FaultIs e (on_top TwoAlike self.old)) }
    {
        let top = innermost(&self.frames)?;
        act_alike(&mut self.operands, top.height, top.endless)
    }

    /// Opens a block.
    pub fn open(&mut self, opening: Opening, result_type: Option<ValType>) -> Result<(), Fault>
        ensures { MatchResult result (λ _. opened opening result_type self.old ≡ Ok self.new) (λ e. FaultIs e (opened opening result_type self.old)) }
    {
        let _outside = innermost(&self.frames)?;
        let frame = Frame {
            opening,
            result: result_type,
            endless: false,
            height: self.operands.len(),
        };
        add(&mut self.frames, frame)
    }

    /// Begins the second arm of an if.
    pub fn turn(&mut self) -> Result<(), Fault>
        ensures { MatchResult result (λ _. turned self.old ≡ Ok self.new) (λ e. FaultIs e (turned self.old)) }
    {
        let top = innermost(&self.frames)?;
        may_turn(top.opening)?;
        close(&mut self.operands, top.height, top.endless, top.result)?;
        let second = Frame {
            opening: Opening::Straight,
            result: top.result,
            endless: false,
            height: top.height,
        };
        replace(&mut self.frames, second);
        Ok(())
    }

    /// Closes the innermost block.
    pub fn end(&mut self) -> Result<(), Fault>
        ensures { MatchResult result (λ _. ended self.old ≡ Ok self.new) (λ e. FaultIs e (ended self.old)) }
    {
        let top = innermost(&self.frames)?;
        close(&mut self.operands, top.height, top.endless, top.result)?;
        may_end(top.opening, top.result)?;
        remove(&mut self.frames);
        push_result(&mut self.operands, top.result)
    }

    /// How many operands stand in all open blocks.
    pub fn standing(&self) -> usize
        ensures value { result ≡ standing self.now }
        ensures fits { result < 2 ^ 63 }
    {
        let open = self.frames.len();
        if open > 0 {
            self.operands.len() - self.frames[0].height
        } else {
            0
        }
    }

    /// What a branch to this label carries, where there is such a label.
    pub fn label(&self, label: u32) -> Option<Option<ValType>>
        ensures { result ≡ slice_get (map label_of self.now) label }
    {
        let n = self.frames.len();
        let i = label as usize;
        if i < n {
            let frame = self.frames[n - 1 - i];
            match frame.opening {
                Opening::Back => Some(None),
                Opening::Straight | Opening::FirstArm => Some(frame.result),
            }
        } else {
            None
        }
    }

    /// Whether there are all these labels.
    pub fn all_labels(&self, labels: &[u32]) -> Result<(), Fault>
        ensures { MatchResult result (λ _. all_labels (map label_of self.now) labels.now ≡ Ok tt) (λ e. FaultIs e (all_labels (map label_of self.now) labels.now)) }
    {
        for l in labels {
            if self.label(*l).is_none() {
                return Err(Fault::Broken(Rule::NoLabel));
            }
        }
        Ok(())
    }

    /// Whether a branch to each of these labels carries the same as one to this.
    pub fn alike(&self, labels: &[u32], label: u32) -> bool
        ensures { result ≡ alike (map label_of self.now) labels.now label }
    {
        for l in labels {
            if !carries(self.label(*l), self.label(label)) {
                return false;
            }
        }
        true
    }
}

// Whether there are two labels, to which branches carry the same.
fn carries(a: Option<Option<ValType>>, b: Option<Option<ValType>>) -> bool
    ensures { result ≡ Typing.carries a b }
{
    match (a, b) {
        (Some(None), Some(None)) => true,
        (Some(Some(t)), Some(Some(u))) => t == u,
        _ => false,
    }
}
