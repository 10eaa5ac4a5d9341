//! A stack of what is open round a statement.

ghost use Rattle.std.specs.Prelude.{reverse};
ghost use Rattle.asm_grammar_stmts.specs.Reach.{Risen, Risen-prop, reach_view};

use crate::frame::Frame;
use crate::items::Items;
use crate::reach::Reach;
use asm_grammar_nodes::Height;
use std::alloc::{AllocError, Global};

/// A frame, and the reach of those below it.
#[derive(Drop)]
pub(crate) struct Entry {
    frame: Frame,
    below: Reach,
}

/// What is open round a statement within the list of a body, the innermost last, with its reach.
pub(crate) struct Frames {
    entries: Vec<Entry>,
    reach: Reach,
    ghost risen: { Risen (reverse entries.items) (reach_view reach) } by { Risen-prop (reverse entries.items) (reach_view reach) },
}

/// By hand, so that the end of a stack is one call wherever it is let go.
impl Drop for Frames {
    fn drop(self) {
        let Frames {
            entries: _,
            reach: _,
        } = self;
    }
}

impl Frames {
    ghost use Rattle.std.specs.Prelude.{◌≡◌, [], ◌∷◌, IfOk, MatchOption};
    ghost use Rattle.asm_grammar_nodes.specs.Heights.{counted};
    ghost use Rattle.asm_grammar_stmts.specs.Reach.{capped_reach, frames_reach};
    ghost use Rattle.asm_grammar_stmts.specs.Frames.{frames_list};
    ghost use Rattle.asm_grammar_stmts.specs.Items.{items_view};
    ghost use Rattle.asm_grammar_stmts.specs.Views.{frames_last};

    /// Nothing is open.
    pub(crate) fn new(alloc: Global) -> Frames
        ensures { frames_list result ≡ [] }
    {
        Frames {
            entries: Vec::new(alloc),
            reach: Reach::in_list(),
        }
    }

    /// A further frame in all these.
    #[tactic(auto, using(crate::proofs::RisingStacks::stacks))]
    pub(crate) fn with(self, frame: Frame) -> Result<Frames, AllocError>
        ensures { IfOk result (λ r. frames_list r ≡ frame ∷ frames_list self) }
    {
        let Frames { mut entries, reach } = self;
        let below = reach;
        let reach = frame.reach(below);
        match entries.push(Entry { frame, below }) {
            Ok(()) => Ok(Frames { entries, reach }),
            Err(_) => Err(AllocError),
        }
    }

    /// The innermost frame, taken off.
    #[tactic(auto, using(crate::proofs::RisingStacks::stacks))]
    pub(crate) fn pop(&mut self) -> Option<Frame>
        ensures { MatchOption result (frames_list self.old ≡ []) (λ f. frames_list self.old ≡ f ∷ frames_list self.new) }
    {
        match self.entries.pop() {
            None => None,
            Some(entry) => {
                self.reach = entry.below;
                Some(entry.frame)
            }
        }
    }

    /// Of all frames.
    pub(crate) fn reach(&self) -> Reach
        ensures { reach_view result ≡ capped_reach (frames_reach (frames_list self.now)) }
    {
        self.reach
    }

    /// Of the last statement in the innermost list, if that is the innermost frame: 0 for none. `body` are those outside
    /// all frames.
    #[tactic(auto, using(crate::proofs::RisingStacks::lasts))]
    pub(crate) fn last(&self, body: &Items) -> Height
        ensures { result.count ≡ counted (frames_last (frames_list self.now) (items_view body.now)) }
    {
        match self.entries.last() {
            None => body.last(),
            Some(entry) => match &entry.frame {
                Frame::Item(items, _) => items.last(),
                Frame::CaseItem(_, items, _) => items.last(),
                Frame::Arm(_, _)
                | Frame::OtherArm(_, _, _)
                | Frame::WhileBody(_, _)
                | Frame::DoBody(_)
                | Frame::ForBody(_, _, _, _)
                | Frame::Labels(_) => Height::none(),
            },
        }
    }
}

/// All that is open round a statement: the statements of the body so far, and what is open within the next.
pub(crate) struct Around {
    pub(crate) body: Items,
    pub(crate) frames: Frames,
}

/// By hand, so that the end is one call wherever it is let go.
impl Drop for Around {
    fn drop(self) {
        let Around { body: _, frames: _ } = self;
    }
}

impl Around {
    ghost use Rattle.std.specs.Prelude.{◌≡◌, ◌∷◌, IfOk};
    ghost use Rattle.asm_grammar_stmts.specs.Frames.{frames_list};

    /// The same with a further frame in it.
    pub(crate) fn with(self, frame: Frame) -> Result<Around, AllocError>
        ensures body { IfOk result (λ r. r.body ≡ self.body) }
        ensures frames { IfOk result (λ r. frames_list r.frames ≡ frame ∷ frames_list self.frames) }
    {
        let Around { body, frames } = self;
        match frames.with(frame) {
            Ok(frames) => Ok(Around { body, frames }),
            Err(error) => Err(error),
        }
    }

    /// The statements of the body, and what is open within the next.
    pub(crate) fn into_parts(self) -> (Items, Frames)
        ensures body { result.0 ≡ self.body }
        ensures frames { result.1 ≡ self.frames }
    {
        let Around { body, frames } = self;
        (body, frames)
    }
}
